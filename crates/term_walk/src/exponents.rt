//! Powers: what an exponent is, and powers whose exponent is no constant.

ghost use Rattle.std.specs.Prelude.{◌≡◌, ◌≢◌, ◌≤◌, ◌*ℤ◌, pos, unsigned_abs};
ghost use Rattle.term_classes.specs.TreePolynomial.{constant_of};
ghost use Rattle.term_text.specs.View.{tree_of};
ghost use Rattle.steps.specs.Answers.{Answers};
ghost use Rattle.steps.specs.Found.{found};
ghost use Rattle.steps.specs.Steps.{within_limit};
ghost use Rattle.steps.specs.TermFaults.{term_cause};
ghost use Rattle.term_classes.specs.Walk.{base_or_refused};
ghost use Rattle.tree_polynomials.specs.Views.{fraction_value, whole_value};
ghost use Rattle.term_walk.specs.Views.{gathered_of, wide_form_of};
ghost use Rattle.term_walk.specs.WalkRows.{constant_kind, exponent_of, find_exponent_kind, exponential_left};

use crate::arguments::form_of_tree;
use crate::gathered::Gathered;
use crate::powers::WalkPower;
use crate::wide_forms::{WideForm, exponent_within_limits, linear_form};
use poly_fraction::Frac;
use poly_generic::Znk;
use ring_laws::{Ring, Whole};
use std::alloc::Global;
use steps::{LimitName, TermFault};
use term_text::Ast;
use tree_polynomials::{capped_magnitude, constant_of, constant_of_tree, polynomial_of_tree};

// What an exponent is to a walk.
#[derive(Clone, Copy, Drop)]
pub(crate) enum Exponent {
    // The constant 0.
    Zero,
    // Another constant, times the power of the walk.
    Constant(WalkPower),
    // No constant: the linear form that it is, if it is one.
    Varying(Option<WideForm>),
}

// What an exponent is, in a walk that takes the whole to a power.
pub(crate) fn kind_of_exponent(
    alloc: Global,
    exponent: &Ast,
    power: WalkPower,
) -> Result<Exponent, TermFault>
    ensures answers { Answers term_cause exponent_of (find_exponent_kind (tree_of exponent.now) power.value) result }
{
    let polynomial = polynomial_of_tree(alloc, exponent)?;
    match number_of(&polynomial) {
        Some(constant) => {
            let constant = exponent_within_limit(power.value, constant)?;
            Ok(kind_of_constant(power, constant))
        }
        None => Ok(Exponent::Varying(linear_form(&polynomial))),
    }
}

// What a constant exponent is.
fn kind_of_constant(power: WalkPower, constant: i64) -> Exponent
    requires small { unsigned_abs (power.value *ℤ constant) ≤ 12 }
    ensures kind { exponent_of result ≡ constant_kind power.value constant }
{
    if constant == 0 {
        return Exponent::Zero;
    }
    Exponent::Constant(WalkPower {
        value: power.value * constant,
    })
}

// The number that a polynomial is, where there is one and it is constant.
fn number_of(polynomial: &Option<Znk>) -> Option<Whole>
    ensures constant { found whole_value result ≡ constant_of (found ⟦<Znk as Ring>⟧.meaning polynomial.now) }
{
    match polynomial {
        Some(polynomial) => constant_of(polynomial),
        None => None,
    }
}

// A constant exponent, where its product with the power of the walk is within the limit.
fn exponent_within_limit(power: i64, constant: Whole) -> Result<i64, TermFault>
    requires not_zero { power ≢ pos 0 }
    requires small { unsigned_abs power ≤ 12 }
    ensures answers { Answers term_cause (λ c. c) (within_limit LimitName.Exponent (unsigned_abs (power *ℤ constant.value)) constant.value) result }
{
    let counted = capped_magnitude(constant).saturating_mul(power.unsigned_abs());
    if counted > LimitName::Exponent.greatest_count() {
        return Err(TermFault::Limit {
            name: LimitName::Exponent,
            counted,
        });
    }
    Ok(constant.value() as i64)
}

// What was gathered, times a base to the power of an exponent that is no constant, the whole to a power.
pub(crate) fn times_exponential_of(
    alloc: Global,
    at: u32,
    base: &Ast,
    exponent: &Ast,
    form: Option<WideForm>,
    power: i64,
    gathered: Gathered,
) -> Result<Gathered, TermFault>
    requires small { unsigned_abs power ≤ 12 }
    ensures answers { Answers term_cause gathered_of (exponential_left at (tree_of base.now) (tree_of exponent.now)
        (found wide_form_of form) power (gathered_of gathered)) result }
{
    let constant = constant_of_tree(alloc, base)?;
    let nonzero = base_of_constant(at, constant)?;
    let linear = form_of_tree(5, exponent, form)?;
    let limited = exponent_within_limits(linear)?;
    gathered.times_exponential(alloc, at, &nonzero, limited, power)
}

// The constant of a base, unless there is none or it is 0.
fn base_of_constant(at: u32, constant: Option<Frac<Whole>>) -> Result<Frac<Whole>, TermFault>
    ensures answers { Answers term_cause fraction_value (base_or_refused at (found fraction_value constant)) result }
{
    match constant {
        Some(base) => {
            if base.top().value() == 0 {
                return Err(TermFault::Improper { reason: 4, at });
            }
            Ok(base)
        }
        None => Err(TermFault::Improper { reason: 4, at }),
    }
}
