//! Linear forms in n and k, with bounds.

ghost use Rattle.std.specs.Prelude.{◌≡◌, ◌≢◌, ℕ, ℤ, pos, unsigned_abs, ◌≤◌, ◌^◌, ◌+ℤ◌, ◌*ℤ◌, ◌<ℤ◌, MatchOption};
ghost use Rattle.std.specs.Int.{◌∣◌};

use ring_laws::gcd_whole;

/// `n_slope * n + k_slope * k + offset`, with slopes of at most 64 and an offset of at most 2^40 in magnitude.
///
/// The order compares k slope, then n slope, then offset: it is that of the fields. No call takes memory.
#[derive(Clone, Copy, Debug, PartialEq, Eq, PartialOrd, Ord, Hash, Drop)]
pub struct LinForm {
    k_slope: i64,
    n_slope: i64,
    offset: i64,
    ghost small_k_slope: { unsigned_abs k_slope ≤ 64 },
    ghost small_n_slope: { unsigned_abs n_slope ≤ 64 },
    ghost small_offset: { unsigned_abs offset ≤ 2 ^ 40 },
}

impl LinForm {
    ghost use Rattle.std.specs.Prelude.{◌≡◌, ◌≢◌, ◌⊎◌, ◌<ℤ◌, ◌+ℤ◌, ◌*ℤ◌, pos, ℤ, ℕ, MatchOption, IfSome, IsTrue, ◌↔◌};
    ghost use Rattle.hypergeometric.specs.Point.{Point, point, later_n, later_k};
    ghost use Rattle.hypergeometric.specs.LinearForm.{LinearForm, form_value};
    ghost use Rattle.hypergeometric.specs.FormOrder.{IsForm, IsPrimitive, IsPositiveFirst};
    ghost use Rattle.lin_form.specs.Forms.{form_of};
    ghost use Rattle.hypergeometric.specs.Forms.{form_with, multiple, IsGreatestDivisor, IsMatchAt};

    /// The form with these numbers, `None` exactly where a slope is above 64 or the offset above 2^40 in magnitude.
    pub fn new(n_slope: i64, k_slope: i64, offset: i64) -> Option<LinForm>
        ensures given { MatchOption result (¬ IsForm (form_with n_slope k_slope offset)) (λ form. form_of form ≡ form_with n_slope k_slope offset) }
    {
        if n_slope.unsigned_abs() > 64
            || k_slope.unsigned_abs() > 64
            || offset.unsigned_abs() > 1 << 40
        {
            return None;
        }
        Some(LinForm {
            k_slope,
            n_slope,
            offset,
        })
    }

    /// The factor of n.
    pub fn n_slope(&self) -> i64
        ensures n_slope { result ≡ (form_of self.now).n_slope }
        ensures form { IsForm (form_of self.now) }
    {
        self.n_slope
    }

    /// The factor of k.
    pub fn k_slope(&self) -> i64
        ensures k_slope { result ≡ (form_of self.now).k_slope }
        ensures form { IsForm (form_of self.now) }
    {
        self.k_slope
    }

    /// The number that is added.
    pub fn offset(&self) -> i64
        ensures offset { result ≡ (form_of self.now).offset }
        ensures form { IsForm (form_of self.now) }
    {
        self.offset
    }

    /// The value at n and k.
    pub fn at(&self, n: i64, k: i64) -> i128
        ensures value { result ≡ form_value (form_of self.now) (point n k) }
    {
        product(self.n_slope, n) + product(self.k_slope, k) + i128::from(self.offset)
    }

    /// The form whose value at n is that of this form at `n + by`.
    pub fn shift_n(&self, by: i64) -> LinForm
        requires in_bounds { unsigned_abs ((form_of self.now).offset +ℤ (form_of self.now).n_slope *ℤ by) ≤ 2 ^ 40 }
        ensures value { (p : Point) → form_value (form_of result) p ≡ form_value (form_of self.now) (later_n p by) }
        ensures slopes { ((form_of result).n_slope ≡ (form_of self.now).n_slope) × ((form_of result).k_slope ≡ (form_of self.now).k_slope) }
        ensures offset { (form_of result).offset ≡ (form_of self.now).offset +ℤ (form_of self.now).n_slope *ℤ by }
    {
        LinForm {
            k_slope: self.k_slope,
            n_slope: self.n_slope,
            offset: shifted(self.offset, self.n_slope, by),
        }
    }

    /// The form whose value at k is that of this form at `k + by`.
    pub fn shift_k(&self, by: i64) -> LinForm
        requires in_bounds { unsigned_abs ((form_of self.now).offset +ℤ (form_of self.now).k_slope *ℤ by) ≤ 2 ^ 40 }
        ensures value { (p : Point) → form_value (form_of result) p ≡ form_value (form_of self.now) (later_k p by) }
        ensures slopes { ((form_of result).n_slope ≡ (form_of self.now).n_slope) × ((form_of result).k_slope ≡ (form_of self.now).k_slope) }
        ensures offset { (form_of result).offset ≡ (form_of self.now).offset +ℤ (form_of self.now).k_slope *ℤ by }
    {
        LinForm {
            k_slope: self.k_slope,
            n_slope: self.n_slope,
            offset: shifted(self.offset, self.k_slope, by),
        }
    }

    /// The factor and the primitive form whose product is this form.
    ///
    /// The numbers of the primitive form have no common divisor above 1, and the first of k slope, n slope and offset that
    /// isn't 0 is positive. No other factor and form are so.
    pub fn primitive(&self) -> (i64, LinForm)
        requires not_zero { form_of self.now ≢ form_with (pos 0) (pos 0) (pos 0) }
        ensures product { form_of self.now ≡ multiple result.0 (form_of result.1) }
        ensures primitive { IsPrimitive (form_of result.1) }
        ensures only { (c : ℤ) → (f : LinearForm) → form_of self.now ≡ multiple c f → IsPrimitive f → (result.0 ≡ c) × (form_of result.1 ≡ f) }
    {
        let divisor = self.divisor();
        let factor = if self.is_positive_first() {
            divisor
        } else {
            -divisor
        };
        let form = LinForm {
            k_slope: exact_quotient(self.k_slope, factor),
            n_slope: exact_quotient(self.n_slope, factor),
            offset: exact_quotient(self.offset, factor),
        };
        (factor, form)
    }

    // The greatest common divisor of the three numbers.
    fn divisor(&self) -> i64
        requires not_zero { form_of self.now ≢ form_with (pos 0) (pos 0) (pos 0) }
        ensures positive { pos 0 <ℤ result }
        ensures small { unsigned_abs result ≤ 2 ^ 40 }
        ensures greatest { IsGreatestDivisor (form_of self.now) (unsigned_abs result) }
    {
        let slopes = gcd_whole(
            u128::from(self.k_slope.unsigned_abs()),
            u128::from(self.n_slope.unsigned_abs()),
        );
        gcd_whole(slopes, u128::from(self.offset.unsigned_abs())) as i64
    }

    // Whether the first number that isn't 0 is positive.
    fn is_positive_first(&self) -> bool
        ensures test { IsTrue result ↔ IsPositiveFirst (form_of self.now) }
    {
        if self.k_slope != 0 {
            return self.k_slope > 0;
        }
        if self.n_slope != 0 {
            return self.n_slope > 0;
        }
        self.offset > 0
    }

    /// The h of at least 0 for which this form at k is the other one at `k + h`, `None` exactly where there is none.
    pub fn match_shift(&self, other: &LinForm) -> Option<u64>
        requires rising { pos 0 <ℤ (form_of self.now).k_slope }
        ensures matches { MatchOption result ((h : ℕ) → ¬ IsMatchAt (form_of self.now) (form_of other.now) h)
            (λ h. IsMatchAt (form_of self.now) (form_of other.now) h) }
    {
        if self.k_slope != other.k_slope || self.n_slope != other.n_slope {
            return None;
        }
        whole_quotient(self.offset - other.offset, self.k_slope)
    }
}

// The offset after a shift. A product of a slope and a number of 64 bits wants more than 64 bits.
fn shifted(offset: i64, slope: i64, by: i64) -> i64
    requires small_slope { unsigned_abs slope ≤ 64 }
    requires in_bounds { unsigned_abs (offset +ℤ slope *ℤ by) ≤ 2 ^ 40 }
    ensures offset { result ≡ offset +ℤ slope *ℤ by }
{
    (i128::from(offset) + product(slope, by)) as i64
}

// A slope times a number.
fn product(slope: i64, number: i64) -> i128
    requires small_slope { unsigned_abs slope ≤ 64 }
    ensures product { result ≡ slope *ℤ number }
    ensures bound { unsigned_abs result ≤ 2 ^ 69 }
{
    i128::from(slope) * i128::from(number)
}

// The quotient by a number that divides.
fn exact_quotient(number: i64, divisor: i64) -> i64
    requires small { unsigned_abs number ≤ 2 ^ 40 }
    requires divides { unsigned_abs divisor ∣ unsigned_abs number }
    requires not_zero { divisor ≢ pos 0 }
    ensures quotient { divisor *ℤ result ≡ number }
    ensures small { unsigned_abs result ≤ unsigned_abs number }
{
    number / divisor
}

// The h of at least 0 with `slope * h` the number, if there is one.
fn whole_quotient(number: i64, slope: i64) -> Option<u64>
    requires positive { pos 0 <ℤ slope }
    ensures quotient { MatchOption result ((h : ℕ) → slope *ℤ pos h ≢ number) (λ h. slope *ℤ pos h ≡ number) }
{
    if number < 0 {
        return None;
    }
    let number = number.unsigned_abs();
    let slope = slope.unsigned_abs();
    if number % slope != 0 {
        return None;
    }
    Some(number / slope)
}
