//! The powers that a walk takes trees to.

ghost use Rattle.std.specs.Prelude.{◌≡◌, ◌≢◌, ◌≤◌, pos, unsigned_abs};
ghost use Rattle.term_classes.specs.TreeValue.{part_power};

// A power that a walk takes a tree to.
#[derive(Clone, Copy, Drop)]
pub(crate) struct WalkPower {
    pub(crate) value: i64,
    ghost some: { value ≢ pos 0 },
    ghost small: { unsigned_abs value ≤ 12 },
}

// The power of a part.
pub(crate) fn power_of_part(turned: bool, power: WalkPower) -> WalkPower
    ensures power { result.value ≡ part_power turned power.value }
{
    if turned {
        WalkPower {
            value: -power.value,
        }
    } else {
        power
    }
}
