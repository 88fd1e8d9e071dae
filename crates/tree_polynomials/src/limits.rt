//! Numbers within a limit.

ghost use Rattle.std.specs.Prelude.{◌≡◌, ◌≤◌, ◌^◌, unsigned_abs};
ghost use Rattle.steps.specs.Answers.{Answers};
ghost use Rattle.steps.specs.Limits.{capped};
ghost use Rattle.steps.specs.Steps.{within_limit};
ghost use Rattle.steps.specs.TermFaults.{term_cause};

use ring_laws::Whole;
use steps::{LimitName, TermFault};

/// The magnitude of a number as a count, with 2^64 - 1 for what is above it.
pub fn capped_magnitude(number: Whole) -> u64
    ensures count { result ≡ capped (unsigned_abs number.value) }
{
    number.value().unsigned_abs().min(u128::from(u64::MAX)) as u64
}

/// The number, where its magnitude is within a limit.
pub fn number_within(number: Whole, name: LimitName) -> Result<i64, TermFault>
    ensures answers { Answers term_cause (λ z. z) (within_limit name (unsigned_abs number.value) number.value) result }
{
    let counted = capped_magnitude(number);
    if counted > name.greatest_count() {
        return Err(TermFault::Limit { name, counted });
    }
    Ok(number.value() as i64)
}
