//! The counts that have a limit, and the greatest of each that is taken.

ghost use Rattle.std.specs.Prelude.{◌≡◌, ◌≤◌};
ghost use Rattle.steps.specs.Limits.{greatest_count};

/// A count that has a limit.
#[derive(Clone, Copy, Debug, PartialEq, Eq, Drop)]
pub enum LimitName {
    /// The factorials and denominators of a term, by their powers, before cancelling.
    Factors,
    /// The slopes of a form.
    Slope,
    /// The offset of a form.
    Offset,
    /// A constant exponent, or the constant part of one.
    Exponent,
    /// The order of a recurrence.
    Order,
    /// The degree of a polynomial.
    Degree,
    /// The shifts at which forms match.
    MatchShifts,
    /// The columns of a system of equations.
    Columns,
    /// The pairs of forms that are tried.
    HyperPairs,
    /// The length of a side of a box.
    BoxSide,
}

impl LimitName {
    /// The greatest count that is within the limit.
    pub fn greatest_count(self) -> u64
        ensures greatest { result ≡ greatest_count self }
        ensures small { greatest_count self ≤ 1000000 }
    {
        match self {
            LimitName::Factors => 24,
            LimitName::Slope => 8,
            LimitName::Offset => 1_000_000,
            LimitName::Exponent => 12,
            LimitName::Order => 6,
            LimitName::Degree => 64,
            LimitName::MatchShifts => 256,
            LimitName::Columns => 48,
            LimitName::HyperPairs => 1024,
            LimitName::BoxSide => 256,
        }
    }
}
