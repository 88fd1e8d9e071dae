//! The terms that are answered today: a small whole number times a polynomial in k alone.

ghost use Rattle.std.specs.Prelude.{◌≡◌, ◌≢◌, ◌↔◌, ℕ, pos, IsTrue, IsNone, IfSome, MatchOption, All, slice_index_or};
ghost use Rattle.ring_laws.specs.Meaning.{items};
ghost use Rattle.poly_laws.specs.Lists.{coefficient_at};
ghost use Rattle.poly_laws.specs.Values.{level};
ghost use Rattle.hypergeometric.specs.Fraction.{of_whole};
ghost use Rattle.proper_term.specs.TermOf.{term_of};
ghost use Rattle.tree_polynomials.specs.Views.{fraction_value};
ghost use Rattle.ekhad_cli.specs.FirstRun.{IsSmall, IsSmallConstant, HasSmallCoefficients, IsScaledPolynomial, IsFirstRunTerm, HasNumbers};

use poly_fraction::Frac;
use poly_generic::{Zn, Znk};
use proper_term::Proper;
use ring_laws::{Ring, Whole};

/// The coefficients of a polynomial in k, from the power 0 up, and what it is multiplied by, all below 10^6 in magnitude.
#[derive(Clone, Copy, Debug, PartialEq, Eq, Drop)]
pub(crate) struct SmallTerm {
    pub(crate) coefficients: [i64; 5],
    pub(crate) scale: i64,
}

// The number, where it is small.
fn small_number(number: Whole) -> Option<i64>
    ensures small { MatchOption result (¬ IsSmall number.value) (λ small. (small ≡ number.value) × IsSmall number.value) }
{
    if number.value().unsigned_abs() < 1_000_000 {
        Some(number.value() as i64)
    } else {
        None
    }
}

// The number that a coefficient is, where it is a small one.
fn small_constant(coefficient: &Zn) -> Option<i64>
    ensures constant { MatchOption result (¬ IsSmallConstant (⟦<Zn as Ring>⟧.meaning coefficient.now))
        (λ c. IsSmall c × (⟦<Zn as Ring>⟧.meaning coefficient.now ≡ (level 1).ops.whole c)) }
{
    match coefficient.coefficients() {
        [] => Some(0),
        [only] => small_number(*only),
        _ => None,
    }
}

// The coefficients of a polynomial, where it has small ones.
fn small_coefficients(polynomial: &Znk) -> Option<[i64; 5]>
    ensures none { IsNone result → ¬ HasSmallCoefficients (⟦<Znk as Ring>⟧.meaning polynomial.now) }
    ensures small { IfSome result (λ numbers. All IsSmall numbers) }
    ensures coefficients { IfSome result (λ numbers. (power : ℕ)
        → coefficient_at (level 1).ops (items (⟦<Znk as Ring>⟧.meaning polynomial.now)) power ≡ (level 1).ops.whole (slice_index_or numbers power (pos 0))) }
{
    let coefficients = polynomial.coefficients();
    if coefficients.len() > 5 {
        return None;
    }
    let mut numbers = [0; 5];
    for power in 0..coefficients.len() {
        numbers[power] = small_constant(&coefficients[power])?;
    }
    Some(numbers)
}

fn is_one(fraction: &Frac<Whole>) -> bool
    ensures one { IsTrue result ↔ (fraction_value fraction.now ≡ of_whole (pos 1)) }
{
    fraction.top().value() == 1 && fraction.bottom().value() == 1
}

// Whether the term has no powers, no factorials and no denominators.
fn is_scaled_polynomial(term: &Proper) -> bool
    ensures test { IsTrue result ↔ IsScaledPolynomial (term_of term.now) }
{
    is_one(term.n_base())
        && is_one(term.k_base())
        && term.up().len() == 0
        && term.down().len() == 0
        && term.over().len() == 0
        && term.guard().len() == 0
}

// The scale, where it is a small whole number.
fn small_scale(scale: &Frac<Whole>) -> Option<i64>
    ensures scale { MatchOption result (¬ ((fraction_value scale.now).bottom ≡ pos 1 × IsSmall (fraction_value scale.now).top))
        (λ number. (fraction_value scale.now ≡ of_whole number) × IsSmall number) }
{
    if scale.bottom().value() != 1 {
        return None;
    }
    small_number(*scale.top())
}

/// The numbers of a term, where it is one that is answered today.
pub(crate) fn small_term(term: &Proper) -> Option<SmallTerm>
    ensures numbers { IfSome result (λ small. HasNumbers (term_of term.now) small.coefficients small.scale) }
    ensures none { IsNone result → ¬ IsFirstRunTerm (term_of term.now) }
{
    if !is_scaled_polynomial(term) {
        return None;
    }
    let scale = small_scale(term.scale())?;
    let coefficients = small_coefficients(term.poly())?;
    Some(SmallTerm {
        coefficients,
        scale,
    })
}
