//! The arguments of a term's factorials at a point.

ghost use Rattle.std.specs.Prelude.{◌≡◌, ◌≤◌, ◌<◌, ◌^◌, ◌-◌, ◌∷◌, ◌++◌, [], ℕ, List, map, MatchOption, IfOk, IfErr, IfSome};
ghost use Rattle.ring_laws.specs.declared.faults.RingFault.TheVariants.{Memory};
ghost use Rattle.lin_form.specs.ListOf.{list_of};
ghost use Rattle.proper_term.specs.Cancelled as spec;
ghost use Rattle.proper_term.specs.Cancelled.{arguments_at, at_least, counted};
ghost use Rattle.proper_term.specs.Points.{point_of};
ghost use Rattle.proper_term.specs.Cursors.{argument_of, IsNextOf, IsNextOfBoth};

use crate::argument::Argument;
use crate::facts::magnitude;
use crate::point::Point;
use lin_form::FactorList;
use ring_laws::RingFault;
use std::alloc::Global;

// The magnitudes of the values of the forms, with their powers.
pub(crate) fn arguments(
    alloc: Global,
    list: &FactorList,
    point: Point,
) -> Result<Vec<Argument>, RingFault>
    ensures arguments { IfOk result (λ found. map argument_of found.items ≡ arguments_at (point_of point) (list_of list.now).factors) }
    ensures memory { IfErr result (λ fault. fault ≡ Memory) }
{
    let mut found = Vec::new(alloc);
    for (form, power) in list.iter() {
        let number = magnitude(point.whole_value_of(&form));
        found.push(Argument { number, power })?;
    }
    Ok(found)
}

// How often the number stands in the factorials of one argument.
fn times_in_one(argument: Argument, number: u128) -> u32
    ensures times { result ≡ counted argument.number argument.power number }
{
    if number <= argument.number {
        argument.power
    } else {
        0
    }
}

// How often the number stands in the product of the factorials.
pub(crate) fn times_in(arguments: &[Argument], number: u128) -> u128
    ensures times { result ≡ at_least (map argument_of arguments.now) number }
    ensures within { 0 < result → number < 2 ^ 72 }
{
    let mut times = 0;
    for argument in arguments {
        times += u128::from(times_in_one(*argument, number));
    }
    times
}

// The lesser of a number that was found and another one, where that is at least the first that is sought.
fn nearer(found: Option<u128>, number: u128, from: u128) -> Option<u128>
    ensures next { (before : List spec.Argument) (x : spec.Argument) → x.number ≡ number → IsNextOf found from before
        → IsNextOf result from (before ++ x ∷ []) }
    ensures small { number < 2 ^ 72 → IfSome found (λ v. v < 2 ^ 72) → IfSome result (λ v. v < 2 ^ 72) }
{
    if number < from {
        return found;
    }
    match found {
        Some(nearest) => Some(nearest.min(number)),
        None => Some(number),
    }
}

// The least argument from a number on. Up to it, each number stands equally often in the product of the factorials.
pub(crate) fn next_in(arguments: &[Argument], from: u128) -> Option<u128>
    ensures next { IsNextOf result from (map argument_of arguments.now) }
    ensures small { IfSome result (λ v. v < 2 ^ 72) }
{
    let mut found = None;
    for argument in arguments {
        found = nearer(found, argument.number, from);
    }
    found
}

// How much more often the number stands above than below.
pub(crate) fn excess(above: &[Argument], below: &[Argument], number: u128) -> u128
    ensures excess { result ≡ at_least (map argument_of above.now) number - at_least (map argument_of below.now) number }
    ensures within { 0 < result → number < 2 ^ 72 }
{
    times_in(above, number).saturating_sub(times_in(below, number))
}

// The least argument of either list from a number on.
pub(crate) fn next_of_both(above: &[Argument], below: &[Argument], from: u128) -> Option<u128>
    ensures next { IsNextOfBoth result from (map argument_of above.now) (map argument_of below.now) }
    ensures small { IfSome result (λ v. v < 2 ^ 72) }
{
    match (next_in(above, from), next_in(below, from)) {
        (Some(left), Some(right)) => Some(left.min(right)),
        (Some(left), None) => Some(left),
        (None, right) => right,
    }
}
