//! Factorials and binomial coefficients.

ghost use Rattle.std.specs.Prelude.{◌≢◌, ◌≤◌, ℕ, pos, unsigned_abs};
ghost use Rattle.grammar.specs.Tree.{tree, factorial_of};
ghost use Rattle.lin_form.specs.Forms.{form_of};
ghost use Rattle.term_text.specs.View.{tree_of};
ghost use Rattle.term_classes.specs.Walk.{times_binomial, walk};
ghost use Rattle.steps.specs.Answers.{Answers};
ghost use Rattle.steps.specs.TermFaults.{term_cause};
ghost use Rattle.term_walk.specs.Views.{gathered_of, wide_form_of};
ghost use Rattle.term_walk.specs.WalkRows.{difference_left, factorials_left, limits_left};

use crate::arguments::{argument_of_tree, not_negative_number};
use crate::gathered::Gathered;
use crate::wide_forms::{WideForm, difference, within_limits};
use lin_form::LinForm;
use std::alloc::Global;
use steps::TermFault;
use term_text::Ast;

// What was gathered, times the factorial of an argument to a power. The place of the factorial plays no part.
pub(crate) fn times_factorial_of(
    alloc: Global,
    argument: &Ast,
    power: i64,
    gathered: Gathered,
) -> Result<Gathered, TermFault>
    requires not_zero { power ≢ pos 0 }
    requires small { unsigned_abs power ≤ 12 }
    ensures answers { (at : ℕ) → Answers term_cause gathered_of (walk (tree at (factorial_of (tree_of argument.now))) power
        (gathered_of gathered)) result }
{
    let form = argument_of_tree(alloc, argument)?;
    not_negative_number(argument.at, form)?;
    let limited = within_limits(form)?;
    gathered.with_factorial(limited, power)
}

// What was gathered, times a binomial coefficient to a power.
pub(crate) fn times_binomial_of(
    alloc: Global,
    at: u32,
    upper: &Ast,
    lower: &Ast,
    power: i64,
    gathered: Gathered,
) -> Result<Gathered, TermFault>
    requires not_zero { power ≢ pos 0 }
    requires small { unsigned_abs power ≤ 12 }
    ensures answers { Answers term_cause gathered_of (times_binomial at (tree_of upper.now) (tree_of lower.now) power (gathered_of gathered)) result }
{
    let upper_form = argument_of_tree(alloc, upper)?;
    let lower_form = argument_of_tree(alloc, lower)?;
    not_negative_number(upper.at, upper_form)?;
    not_negative_number(lower.at, lower_form)?;
    times_two_forms(alloc, at, upper_form, lower_form, power, gathered)
}

// The same, once neither form is a negative number.
fn times_two_forms(
    alloc: Global,
    at: u32,
    upper: WideForm,
    lower: WideForm,
    power: i64,
    gathered: Gathered,
) -> Result<Gathered, TermFault>
    requires not_zero { power ≢ pos 0 }
    requires small { unsigned_abs power ≤ 12 }
    ensures answers { Answers term_cause gathered_of (difference_left at (wide_form_of upper) (wide_form_of lower) power
        (gathered_of gathered)) result }
{
    let between = difference(alloc, at, upper, lower)?;
    not_negative_number(at, between)?;
    times_three_forms(upper, lower, between, power, gathered)
}

// The same, once their difference is known. All limits come first.
fn times_three_forms(
    upper: WideForm,
    lower: WideForm,
    between: WideForm,
    power: i64,
    gathered: Gathered,
) -> Result<Gathered, TermFault>
    requires not_zero { power ≢ pos 0 }
    requires small { unsigned_abs power ≤ 12 }
    ensures answers { Answers term_cause gathered_of (limits_left (wide_form_of upper) (wide_form_of lower) (wide_form_of between) power
        (gathered_of gathered)) result }
{
    let above = within_limits(upper)?;
    let below = within_limits(lower)?;
    let also_below = within_limits(between)?;
    times_three_factorials(above, below, also_below, power, gathered)
}

// What was gathered, times the factorial of the first form over those of the others, the whole to a power.
fn times_three_factorials(
    above: LinForm,
    below: LinForm,
    also_below: LinForm,
    power: i64,
    gathered: Gathered,
) -> Result<Gathered, TermFault>
    requires not_zero { power ≢ pos 0 }
    requires small { unsigned_abs power ≤ 12 }
    ensures answers { Answers term_cause gathered_of (factorials_left (form_of above) (form_of below) (form_of also_below) power
        (gathered_of gathered)) result }
{
    let once = gathered.with_factorial(above, power)?;
    let twice = once.with_factorial(below, -power)?;
    twice.with_factorial(also_below, -power)
}
