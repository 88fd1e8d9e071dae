//! The quotient of the factorials of a term at a point.

ghost use Rattle.std.specs.Prelude.{map};
ghost use Rattle.poly_fraction.specs.FractionOf.{fraction_of};
ghost use Rattle.proper_term.specs.Cancelled.{left_over, quotients};
ghost use Rattle.proper_term.specs.Cursors.{argument_of};
ghost use Rattle.proper_term.specs.Fields.{number_fraction_of};
ghost use Rattle.proper_term.specs.Runs.{GivesRun};

use crate::argument::Argument;
use crate::cursor::Cursor;
use crate::running::times;
use poly_fraction::Frac;
use ring_laws::{RingFault, Whole};
use std::alloc::Global;

// The running fraction times the quotient of the factorials: the factors that are left above over those that are left below, in
// pairs, so that a binomial coefficient stays as small as it is.
pub(crate) fn times_factorials(
    alloc: Global,
    running: Frac<Whole>,
    above: &[Argument],
    below: &[Argument],
) -> Result<Frac<Whole>, RingFault>
    ensures run { GivesRun fraction_of (number_fraction_of (fraction_of running))
        (quotients (left_over (map argument_of above.now) (map argument_of below.now)) (left_over (map argument_of below.now)
        (map argument_of above.now))) result }
{
    let mut running = running;
    let mut top = Cursor::new().filled(above, below);
    let mut bottom = Cursor::new().filled(below, above);
    while top.left > 0 || bottom.left > 0 {
        running = times(alloc, &running, top.number(), bottom.number())?;
        top = top.next(above, below);
        bottom = bottom.next(below, above);
    }
    Ok(running)
}
