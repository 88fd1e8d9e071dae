//! The value of a term at a point.

ghost use Rattle.std.specs.Prelude.{◌≡◌, ◌≢◌, ◌∷◌, ◌↔◌, ◌<◌, ◌^◌, [], pos, IfOk, IfErr, IfSome, IsNone};
ghost use Rattle.ring_laws.specs.Answer.{OnFault};
ghost use Rattle.hypergeometric.specs.Point.{point};
ghost use Rattle.hypergeometric.specs.Fraction.{◌≈◌, of_whole};
ghost use Rattle.hypergeometric.specs.ProperTerm.{IsDefinedAt, NoneNegative, NoneZero, poly_value, proper_value};
ghost use Rattle.poly_fraction.specs.FractionOf.{fraction_of};
ghost use Rattle.proper_term.specs.Fields.{number_fraction_of};
ghost use Rattle.proper_term.specs.Points.{point_of};
ghost use Rattle.proper_term.specs.Runs.{GivesRun, IsInLowestTerms};
ghost use Rattle.proper_term.specs.TermOf.{term_of};
ghost use Rattle.proper_term.specs.ValueBounds.{ValueInBounds, IsRunInBounds, base_power, divisors, factorial_factors, size_at};

use crate::arguments::arguments;
use crate::factorials::times_factorials;
use crate::point::{Point, is_defined_at, none_negative};
use crate::polynomial::polynomial_value;
use crate::proper::Proper;
use crate::running::{over_forms, times, times_power};
use poly_fraction::Frac;
use ring_laws::{RingFault, Whole};
use std::alloc::Global;

/// The value of the term at n and k, in lowest terms with a positive denominator, `None` exactly where it isn't defined (A=B 4.4).
///
/// Common factors of the factorials are cancelled before anything is multiplied, so that a binomial coefficient is no larger than it
/// is. `TooLarge` comes only where the running fraction of the value isn't within bounds: it starts as the scale, is multiplied in
/// turn by what is left of the factorials, by the polynomial's value, the powers of the bases and one over the forms of over, and
/// each product, before it is brought to lowest terms, has to have numerator and denominator below 2^127.
pub fn value(alloc: Global, term: &Proper, n: i64, k: i64) -> Result<Option<Frac<Whole>>, RingFault>
    ensures none { IfOk result (λ found. IsNone found ↔ ¬ IsDefinedAt (term_of term.now) (point n k)) }
    ensures value { IfOk result (λ found. IfSome found (λ f. number_fraction_of (fraction_of f) ≈ proper_value (term_of term.now) (point n k))) }
    ensures lowest { IfOk result (λ found. IfSome found (λ f. IsInLowestTerms (number_fraction_of (fraction_of f)))) }
    ensures too_large { IfErr result (OnFault (¬ ValueInBounds (term_of term.now) (point n k))) }
{
    let point = Point { n, k };
    if !is_defined_at(term, point) {
        return Ok(None);
    }
    let value = defined_value(alloc, term, point)?;
    Ok(Some(value))
}

// The value where the term is defined. A factorial below at a negative number makes it 0.
fn defined_value(alloc: Global, term: &Proper, point: Point) -> Result<Frac<Whole>, RingFault>
    requires defined { IsDefinedAt (term_of term.now) (point_of point) }
    ensures value { IfOk result (λ f. number_fraction_of (fraction_of f) ≈ proper_value (term_of term.now) (point_of point)) }
    ensures lowest { IfOk result (λ f. IsInLowestTerms (number_fraction_of (fraction_of f))) }
    ensures too_large { IfErr result (OnFault (¬ ValueInBounds (term_of term.now) (point_of point))) }
{
    if !none_negative(term.down(), point) {
        return Ok(zero());
    }
    product_value(alloc, term, point)
}

// 0 over 1.
fn zero() -> Frac<Whole>
    ensures top { (number_fraction_of (fraction_of result)).top ≡ pos 0 }
    ensures bottom { (number_fraction_of (fraction_of result)).bottom ≡ pos 1 }
{
    Frac::new(Whole::ZERO, Whole::ONE).unwrap()
}

// The value where no factorial is that of a negative number. A polynomial that is 0 there makes it 0.
fn product_value(alloc: Global, term: &Proper, point: Point) -> Result<Frac<Whole>, RingFault>
    requires defined { IsDefinedAt (term_of term.now) (point_of point) }
    requires down { NoneNegative (term_of term.now).down (point_of point) }
    ensures value { IfOk result (λ f. number_fraction_of (fraction_of f) ≈ proper_value (term_of term.now) (point_of point)) }
    ensures lowest { IfOk result (λ f. IsInLowestTerms (number_fraction_of (fraction_of f))) }
    ensures too_large { IfErr result (OnFault (¬ IsRunInBounds (term_of term.now) (point_of point))) }
{
    let running = scaled_factorials(alloc, term, point)?;
    let poly = poly_at(alloc, term, point)?;
    if poly.value() == 0 {
        return Ok(zero());
    }
    times_factors(alloc, &running, poly, term, point)
}

// The value of the term's polynomial.
fn poly_at(alloc: Global, term: &Proper, point: Point) -> Result<Whole, RingFault>
    ensures value { IfOk result (λ value. value.value ≡ poly_value (term_of term.now).poly (point_of point)) }
    ensures too_large { IfErr result (OnFault (¬ (size_at (point_of point) (term_of term.now).poly < 2 ^ 127))) }
{
    polynomial_value(alloc, term.poly(), point)
}

// The scale times the quotient of the factorials.
fn scaled_factorials(alloc: Global, term: &Proper, point: Point) -> Result<Frac<Whole>, RingFault>
    ensures run { GivesRun fraction_of (term_of term.now).scale (factorial_factors (term_of term.now) (point_of point)) result }
{
    let above = arguments(alloc, term.up(), point)?;
    let below = arguments(alloc, term.down(), point)?;
    let scale = copy_of(term.scale());
    times_factorials(alloc, scale, &above, &below)
}

// The same fraction once more.
fn copy_of(f: &Frac<Whole>) -> Frac<Whole>
    ensures same { number_fraction_of (fraction_of result) ≡ number_fraction_of (fraction_of f.now) }
{
    Frac::new(*f.top(), *f.bottom()).unwrap()
}

// The running fraction times the power of the base of n.
fn times_n_power(
    alloc: Global,
    running: &Frac<Whole>,
    term: &Proper,
    point: Point,
) -> Result<Frac<Whole>, RingFault>
    requires running { (number_fraction_of (fraction_of running.now)).top ≢ pos 0 }
    ensures run { GivesRun fraction_of (number_fraction_of (fraction_of running.now)) (base_power (term_of term.now).n_base point.n ∷ []) result }
{
    times_power(alloc, running, term.n_base(), point.n)
}

// The running fraction times the power of the base of k.
fn times_k_power(
    alloc: Global,
    running: &Frac<Whole>,
    term: &Proper,
    point: Point,
) -> Result<Frac<Whole>, RingFault>
    requires running { (number_fraction_of (fraction_of running.now)).top ≢ pos 0 }
    ensures run { GivesRun fraction_of (number_fraction_of (fraction_of running.now)) (base_power (term_of term.now).k_base point.k ∷ []) result }
{
    times_power(alloc, running, term.k_base(), point.k)
}

// The running fraction over the forms of over.
fn over_divisors(
    alloc: Global,
    running: Frac<Whole>,
    term: &Proper,
    point: Point,
) -> Result<Frac<Whole>, RingFault>
    requires over { NoneZero (term_of term.now).over (point_of point) }
    requires lowest { IsInLowestTerms (number_fraction_of (fraction_of running)) }
    ensures run { GivesRun fraction_of (number_fraction_of (fraction_of running)) (divisors (term_of term.now).over (point_of point)) result }
{
    over_forms(alloc, running, term.over(), point)
}

// The running fraction times the polynomial's value and the powers of the bases, over the forms of over.
fn times_factors(
    alloc: Global,
    running: &Frac<Whole>,
    poly: Whole,
    term: &Proper,
    point: Point,
) -> Result<Frac<Whole>, RingFault>
    requires over { NoneZero (term_of term.now).over (point_of point) }
    requires running { (number_fraction_of (fraction_of running.now)).top ≢ pos 0 }
    requires poly { poly.value ≢ pos 0 }
    ensures run { GivesRun fraction_of (number_fraction_of (fraction_of running.now)) (of_whole poly.value ∷ base_power (term_of term.now).n_base point.n
        ∷ base_power (term_of term.now).k_base point.k ∷ divisors (term_of term.now).over (point_of point)) result }
{
    let running = times(alloc, running, poly, Whole::ONE)?;
    let running = times_n_power(alloc, &running, term, point)?;
    let running = times_k_power(alloc, &running, term, point)?;
    over_divisors(alloc, running, term, point)
}
