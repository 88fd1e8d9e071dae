//! The mathematics of Hyper: hypergeometric solutions of recurrences with polynomials in n (A=B chapter 8).
//!
//! Input: a recurrence p_0(n) y(n) + .. + p_d(n) y(n+d) = 0 and a case of it: polynomials a and b, a fraction z. Output: laws alone, on lists of any
//! length and numbers of any size. The functions do nothing: the contract of each is a law.
//! What a solution is stands in `specs/Recurrences.antt`, then read PolynomialSolutions, Cases, Solutions, DegreeBounds, SolutionRows, ReducedLists,
//! Quotients, FactorProducts.
#![tactic(auto)]

ghost use Rattle.std.specs.Prelude.{◌≡◌, ◌≢◌, ◌<◌, ◌≤◌, ◌↔◌, ℕ, ℤ, pos, suc, IsTrue, List, [], map, length, get_or, Option, Some, None};
ghost use Rattle.std.specs.List.{AllZip};
ghost use Rattle.ring_laws.specs.Meaning.{Meaning, listed, items};
ghost use Rattle.ring_laws.specs.Algebra.{Passing};
ghost use Rattle.poly_laws.specs.Lists.{coefficient_at};
ghost use Rattle.poly_laws.specs.PolyAlgebra.{every_passes};
ghost use Rattle.poly_laws.specs.Shift.{poly_shift};
ghost use Rattle.poly_laws.specs.Values.{level};
ghost use Rattle.kernel_laws.specs.Rows.{entry_at, InKernel};
ghost use Rattle.kernel_laws.specs.Answers.{Basis};
ghost use Rattle.hypergeometric.specs.Point.{point};
ghost use Rattle.hypergeometric.specs.Fraction.{Fraction};
ghost use Rattle.hypergeometric.specs.LinearForm.{Factor, forms_value};
ghost use Rattle.hyper_laws.specs.Recurrences.{value_at_n, Satisfies};
ghost use Rattle.hyper_laws.specs.PolynomialSolutions.{Solves, AreComplete, SameUpToSign};
ghost use Rattle.hyper_laws.specs.Cases.{Case, case_polynomials, case_equation, IsBarren, IsGreatestDegree, lead_sum, lead_polynomial, IsLeadRoot, IsInProfile, HasNoRoot};
ghost use Rattle.hyper_laws.specs.Solutions.{IsFreeOfZeros, IsFirstPlace, IsSolution, solution_value};
ghost use Rattle.hyper_laws.specs.DegreeBounds.{difference_part, IsExcess, indicial_polynomial, IsDegreeBound, IsWithinBound};
ghost use Rattle.hyper_laws.specs.SolutionRows.{AreSolutionRows, AreOfNumbers, polynomial_of};
ghost use Rattle.hyper_laws.specs.ReducedLists.{AreReduced};
ghost use Rattle.hyper_laws.specs.Quotients.{SameQuotient, HasQuotient};
ghost use Rattle.hyper_laws.specs.FactorProducts.{product_of_factors};

/// Where the equation of a case holds and no b(m) is 0 from the first n on, the case gives a solution of the recurrence from there on.
pub fn equations_give_solutions()
    ensures satisfies { (ps : List Meaning) (k : Case) (c : Meaning) (from : ℤ) → k.z.bottom ≢ pos 0 → IsFreeOfZeros k.b from
        → Solves (case_equation ps k) c → Satisfies ps from (solution_value k c from) }
    ensures solution { (ps : List Meaning) (k : Case) (c : Meaning) (from : ℤ) → k.z.bottom ≢ pos 0 → IsFreeOfZeros k.b from
        → Solves (case_equation ps k) c → c ≢ (level 1).ops.nought → IsSolution ps k c from }
{}

/// From the first place above the whole roots of b on, no b(m) is 0.
pub fn first_places_are_free()
    ensures free { (b : Meaning) (from : ℕ) → IsFirstPlace b from → IsFreeOfZeros b (pos from) }
{}

/// The value of a product of forms in n is the product of the values of the forms.
pub fn factor_products_have_values()
    ensures value { (factors : List Factor) (n : ℤ) → value_at_n (product_of_factors factors) n ≡ forms_value factors (point n (pos 0)) }
{}

/// A polynomial that isn't zero solves a case only where z is a root of the leading coefficients; so where there is no root, each case of
/// the profile is barren.
pub fn solutions_need_roots()
    ensures root { (ps : List Meaning) (k : Case) (degree : ℕ) → IsGreatestDegree (case_polynomials k.a k.b 0 ps) degree
        → (c : Passing (level 1)) → Solves (case_equation ps k) c.0 → c.0 ≢ (level 1).ops.nought
        → IsLeadRoot degree (case_polynomials k.a k.b 0 ps) k.z }
    ensures no_root { (ps : List Meaning) (a b : Meaning) → HasNoRoot ps a b → (z : Fraction) → IsInProfile z
        → IsBarren ps (record { a = a; b = b; z = z }) }

    // For each v the whole roots u of one polynomial are the tops of the roots u/v.
    ensures tops { (degree : ℕ) (z : Fraction) (fs : List Meaning)
        → value_at_n (lead_polynomial degree z.bottom fs) z.top ≡ lead_sum degree z 0 fs }
{}

/// The degree of a polynomial solution is at most the greatest candidate (A=B 8.3), and where there is no candidate each solution is zero.
pub fn degrees_are_bounded()
    ensures bounded { (fs : List Meaning) (bound : Option ℕ) (c : Passing (level 1)) → IsDegreeBound fs bound → Solves fs c.0
        → IsWithinBound bound c.0 }

    // So the roots of the indicial polynomial can be looked for.
    ensures indicial { (fs : List Meaning) (t : ℤ) → IsExcess fs t → indicial_polynomial fs t ≢ (level 1).ops.nought }

    // Q_j is the coefficient of X^j in f_0 + f_1 X + f_2 X^2 + .. at X + 1.
    ensures parts { (fs : List Meaning) (j : ℕ) → IsTrue (every_passes (level 1).passes fs)
        → coefficient_at (level 1).ops (items (poly_shift (level 1).ops (pos 1) (listed fs))) j ≡ difference_part fs j }
{}

/// The vectors of numbers that the rows send to zero are the coefficients of the polynomial solutions.
pub fn kernels_are_solutions()
    ensures kernel { (fs : List Meaning) (width : ℕ) (rows : List (List Meaning)) (vector : List Meaning) → AreSolutionRows fs width rows
        → length vector ≤ width
        → Solves fs (polynomial_of vector) ↔ InKernel (level 0).ops width rows (entry_at (level 0).ops vector) }
{}

/// A basis of the kernel of the rows gives a complete list of polynomial solutions, whatever their signs.
pub fn bases_are_complete()
    ensures basis { (fs : List Meaning) (bound : ℕ) (rows vectors : List (List Meaning)) (cs : List Meaning)
        → IsDegreeBound fs (Some bound) → AreSolutionRows fs (suc bound) rows → AreOfNumbers vectors
        → Basis (level 0) (suc bound) rows vectors → AllZip SameUpToSign (map polynomial_of vectors) cs → AreComplete fs cs }
    ensures none { (fs : List Meaning) → IsDegreeBound fs None → AreComplete fs [] }
{}

/// Of all complete lists only one is reduced.
pub fn one_complete_list_is_reduced()
    ensures only { (fs cs ds : List Meaning) → AreComplete fs cs → AreReduced cs → AreComplete fs ds → AreReduced ds → cs ≡ ds }
{}

/// No polynomial of a complete list is zero, and where there is none the case is barren.
pub fn complete_lists_decide()
    ensures not_zero { (fs cs : List Meaning) → AreComplete fs cs → (place : ℕ) → place < length cs
        → get_or cs place (level 1).ops.nought ≢ (level 1).ops.nought }
    ensures barren { (ps : List Meaning) (k : Case) → AreComplete (case_equation ps k) [] → IsBarren ps k }
{}

/// To have the same quotient is an equivalence.
pub fn same_quotient_is_an_equivalence()
    ensures itself { (k : Case) (c : Meaning) → SameQuotient k c k c }
    ensures turned { (k l : Case) (c d : Meaning) → SameQuotient k c l d → SameQuotient l d k c }
    ensures chain { (k l m : Case) (c d e : Meaning) → HasQuotient l d → SameQuotient k c l d → SameQuotient l d m e
        → SameQuotient k c m e }
{}
