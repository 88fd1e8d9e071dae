//! What a reduction leaves, and so what the vectors of elimination have, as laws.

ghost use Rattle.std.specs.Prelude.{◌≡◌, ◌↔◌, ⊤, List, ℕ, All};
ghost use Rattle.ring_laws.specs.Meaning.{Meaning};
ghost use Rattle.ring_laws.specs.Wholes.{whole_algebra};
ghost use Rattle.poly_divide.specs.Content.{row_sizes, IsContent};
ghost use Rattle.whole_roots.specs.Differences.{polynomials};
ghost use Rattle.kernel_laws.specs.Rows.{entry_at};
ghost use Rattle.kernel_laws.specs.Kernels.{EndsAt};
ghost use Rattle.kernel_laws.specs.Answers.{VectorOf, VectorsOf, Basis};
ghost use Rattle.reducing.specs.WholeRows.{ArePrimitive, whole_reduction};
ghost use Rattle.reducing.specs.PolynomialRows.{degree, CoreInBounds, PolynomialsInBounds, PolynomialsReduced, SplittingInBounds, polynomial_reduction};
ghost use Rattle.reducing.specs.NothingCommon.{HasNothingCommon};
ghost use Rattle.reducing.specs.CommonForms.{HasNoCommonForm, IsSomeNonzero};
ghost use Rattle.reducing.specs.WhatIsLeft.{IsWhatIsLeft};

use crate::domains::Reducing;
use poly_generic::Zn;
use ring_laws::Whole;

/// Of two whole numbers neither is the better pivot, and of two polynomials in n the one of less degree is.
pub fn weights()
    ensures of_numbers { (x : Meaning) → ⟦<Whole as Reducing>⟧.reduction.weight x ≡ 0 }
    ensures in_n { (f : Meaning) → ⟦<Zn as Reducing>⟧.reduction.weight f ≡ degree f }
{}

/// Each step of reducing a row of whole numbers is in bounds, and so is each of finding the parts of a number. Over polynomials in n the steps are
/// those of finding the linear factors and of dividing by them, and for the plain part also the division by the core and the product with the
/// content.
pub fn reductions_in_bounds()
    ensures of_numbers { (row : List Meaning) → ⟦<Whole as Reducing>⟧.reduction.ReductionInBounds row ↔ ⊤ }
    ensures parts_of_numbers { (x : Meaning) → (⟦<Whole as Reducing>⟧.reduction.SplitInBounds x ↔ ⊤)
        × (⟦<Whole as Reducing>⟧.reduction.CoreInBounds x ↔ ⊤) }
    ensures in_n { (row : List Meaning) → ⟦<Zn as Reducing>⟧.reduction.ReductionInBounds row ↔ PolynomialsInBounds row }
    ensures parts_in_n { (f : Meaning) → (⟦<Zn as Reducing>⟧.reduction.SplitInBounds f ↔ SplittingInBounds f)
        × (⟦<Zn as Reducing>⟧.reduction.CoreInBounds f ↔ CoreInBounds f) }
{}

/// Of a reduced row of polynomials in which some coefficient isn't zero, no form `u*n + v` with u from 1 to 4 and no common divisor of u and
/// v above 1 divides every entry.
pub fn no_form_is_left()
    ensures law { (old new : List Meaning) → PolynomialsReduced old new → IsSomeNonzero new → HasNoCommonForm new }
{}

/// Of a reduced row of polynomials in which some coefficient isn't zero, no whole number above 1 divides every coefficient.
pub fn no_content_is_left()
    ensures law { (old new : List Meaning) → PolynomialsReduced old new → IsSomeNonzero new → IsContent (row_sizes new) 1 }
{}

/// A reduced row of polynomials in which some coefficient isn't zero is what is left of the row: times a whole number and forms `u*n + v`, u from 1
/// to 4 and prime to v, it is the row, its coefficients have no common divisor above 1, and no such form divides every entry of it.
pub fn reduced_rows_are_what_is_left()
    ensures law { (old new : List Meaning) → PolynomialsReduced old new → IsSomeNonzero new → IsWhatIsLeft old new }
{}

/// Of a row of polynomials one row is left: two rows that each are what is left of it are the same, with the same signs, and so the reduced row is
/// that one.
pub fn one_row_is_left()
    ensures law { (old new other : List Meaning) → IsWhatIsLeft old new → IsWhatIsLeft old other → new ≡ other }
    ensures reduced { (old new other : List Meaning) → PolynomialsReduced old new → IsSomeNonzero new → IsWhatIsLeft old other → new ≡ other }
{}

/// Of a vector of polynomials that the steps of elimination and back substitution give, neither a whole number above 1 nor a form `u*n + v` with u
/// from 1 to 4 and no common divisor of u and v above 1 divides every entry.
pub fn vectors_have_nothing_common()
    ensures law { (columns : ℕ) (rows : List (List Meaning)) (free : ℕ) (vector : List Meaning) →
        VectorOf polynomials polynomial_reduction columns rows free vector →
        EndsAt polynomials.ops columns (entry_at polynomials.ops vector) free → HasNothingCommon vector }
{}

/// Of the vectors of whole numbers that the steps give, none has a whole number above 1 that divides every entry.
pub fn whole_vectors_are_primitive()
    ensures vector { (columns : ℕ) (rows : List (List Meaning)) (free : ℕ) (vector : List Meaning) →
        VectorOf whole_algebra whole_reduction columns rows free vector →
        EndsAt whole_algebra.ops columns (entry_at whole_algebra.ops vector) free → ArePrimitive vector }
    ensures basis { (columns : ℕ) (rows vectors : List (List Meaning)) → VectorsOf whole_algebra whole_reduction columns rows vectors →
        Basis whole_algebra columns rows vectors → All ArePrimitive vectors }
{}
