//! What is left of Y and of the chains is one, and nothing common is left in a solution, as laws.

ghost use Rattle.std.specs.Prelude.{◌≡◌, List, length};
ghost use Rattle.ring_laws.specs.Meaning.{Meaning};
ghost use Rattle.poly_laws.specs.PolyAlgebra.{poly_algebra};
ghost use Rattle.poly_laws.specs.Values.{level};
ghost use Rattle.kernel_laws.specs.Rows.{entry_at};
ghost use Rattle.division_laws.specs.Polynomials.{Polynomial};
ghost use Rattle.key_laws.specs.KeyEquation.{meanings};
ghost use Rattle.reducing.specs.PolynomialRows.{polynomial_reduction};
ghost use Rattle.hypergeometric.specs.LinearForm.{Factor};
ghost use Rattle.hypergeometric.specs.FormOrder.{IsSorted};
ghost use Rattle.term_pieces.specs.NormalForm.{Normal};
ghost use Rattle.form_rings.specs.OneVariable.{forms_in_n};
ghost use Rattle.key_equation.specs.Answers.{IsSolution};
ghost use Rattle.key_equation.specs.Cancelling.{LeavesInOrder};
ghost use Rattle.key_equation.specs.Polynomials.{form_over};
ghost use Rattle.key_equation.specs.Reduced.{IsReduced};

use form_rings::FormRing;

/// Where the forms of a list are divided out of Y in their order, one polynomial and one list of forms are left.
pub fn one_is_left<B: FormRing>()
    ensures only { (chains : List Factor) (y left other : Meaning) (poles others : List Factor)
        → LeavesInOrder (poly_algebra B.algebra) (form_over B.algebra B.forms) chains y left poles
        → LeavesInOrder (poly_algebra B.algebra) (form_over B.algebra B.forms) chains y other others → (left ≡ other) × (poles ≡ others) }
{}

/// Over the polynomials in n no whole number above 1 and no form `u*n + v`, with u from 1 to 4 and no common divisor of u and v above 1, divides all
/// multipliers and all coefficients of Y in what `solve` gives.
pub fn solutions_have_nothing_common()
    ensures law { (normal : Normal) (sides : List (Polynomial (level 1))) (y : Meaning) (multipliers : List Meaning) (poles : List Factor)
        → IsSorted normal.poles.factors
        → IsSolution (level 1) polynomial_reduction forms_in_n normal (meanings (level 1) sides) y multipliers poles
        → IsReduced (length multipliers) (entry_at (level 1).ops multipliers) y }
{}
