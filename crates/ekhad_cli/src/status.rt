//! How a run ends.

ghost use Rattle.std.specs.Prelude.{◌≡◌};
ghost use Rattle.ekhad_cli.specs.Refusals.{code_of};

/// How a run ended.
#[derive(Clone, Copy, Debug, PartialEq, Eq, Drop)]
pub enum Status {
    /// A document with a found recurrence was written, or `check` accepted.
    Found,
    /// The document has no found recurrence, or `check` rejected.
    Empty,
    /// The words are none of the program's.
    Usage,
    /// The input is none that is read.
    Syntax,
    /// The term isn't proper.
    Improper,
    /// A number grew past 127 bits and a sign.
    TooLarge,
    /// A limit was passed.
    Limit,
    /// Memory was refused.
    Memory,
    /// The input could not be read.
    ReadFault,
    /// The output could not be written.
    WriteFault,
}

impl Status {
    /// The exit status of the program: 0 to 9, in the order of the variants.
    pub fn code(self) -> u8
        ensures code { result ≡ code_of self }
    {
        self as u8
    }
}
