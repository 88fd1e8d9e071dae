//! An argument of factorials.

ghost use Rattle.std.specs.Prelude.{◌<◌, ◌^◌};

/// A number whose factorial is taken, and how often.
#[derive(Clone, Copy, Debug, PartialEq, Eq, Drop)]
pub(crate) struct Argument {
    pub(crate) number: u128,
    pub(crate) power: u32,
    ghost small: { number < 2 ^ 72 },
}
