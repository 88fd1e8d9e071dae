//! Why a run gives no answer, and how it then ends.

ghost use Rattle.std.specs.Prelude.{◌≡◌};
ghost use Rattle.ekhad_cli.specs.Refusals.{status_of};

use crate::status::Status;
use steps::LimitName;

/// What is counted, where a limit is passed.
#[derive(Clone, Copy, Debug, PartialEq, Eq, Drop)]
pub enum RunLimit {
    /// The bytes of a term: at most 65,536.
    InputBytes,
    /// The bytes of a document: at most 16,777,216.
    DocumentBytes,
}

/// What is wrong where a text of a term goes wrong.
#[derive(Clone, Copy, Debug, PartialEq, Eq, Drop)]
pub enum SyntaxKind {
    /// No text of the grammar goes on so.
    Unexpected,
    /// A name that is none of the grammar's.
    UnknownName,
    /// The end of the text, where this parenthesis is open.
    Unclosed,
    /// A byte of 128 or more.
    NotAscii,
    /// The 65th open parenthesis.
    Nesting,
}

/// Why a run gives no answer. Places of a text are those of its bytes, counted from 0.
#[derive(Clone, Copy, Debug, PartialEq, Eq, Drop)]
pub enum Refusal {
    /// The words are none of the program's.
    Usage,
    /// The text of a term has no token.
    EmptyInput,
    /// The first fault of the text of a term.
    Syntax { kind: SyntaxKind, at: u32 },
    /// The first line of the input, counted from 1, that no document has there after the lines before it.
    Line { at: u32 },
    /// The first fault of the text of a term is a number of 2^127 or more.
    LiteralTooLarge { at: u32 },
    /// The tree of a term, or the part of it at this place, is no proper term, for this reason, from 1 to 7.
    Improper { reason: u8, at: u32 },
    /// A limit on terms is passed, with what was counted.
    TermLimit { name: LimitName, counted: u64 },
    /// The arithmetic of the node of a term at this place is out of bounds.
    TermTooLarge { at: u32 },
    /// A limit on the steps of an order is passed, with what was counted.
    OrderLimit { name: LimitName, counted: u64 },
    /// The arithmetic of the steps of this order is out of bounds.
    OrderTooLarge { order: u32 },
    /// The arithmetic of the check of a claim, counted from 0, is out of bounds.
    ClaimTooLarge { claim: u32 },
    /// A limit is passed, with what was counted.
    Limit { limit: RunLimit, counted: u64 },
    /// The term is one that no command answers yet.
    Unbuilt,
    /// Memory was refused.
    Memory,
    /// The input could not be read.
    ReadFault,
    /// The output could not be written.
    WriteFault,
}

impl Refusal {
    /// How the run ends.
    pub fn status(self) -> Status
        ensures status { result ≡ status_of self }
    {
        match self {
            Refusal::Usage => Status::Usage,
            Refusal::EmptyInput | Refusal::Syntax { .. } | Refusal::Line { .. } => Status::Syntax,
            Refusal::Improper { .. } => Status::Improper,
            Refusal::LiteralTooLarge { .. }
            | Refusal::TermTooLarge { .. }
            | Refusal::OrderTooLarge { .. }
            | Refusal::ClaimTooLarge { .. } => Status::TooLarge,
            Refusal::Limit { .. }
            | Refusal::TermLimit { .. }
            | Refusal::OrderLimit { .. }
            | Refusal::Unbuilt => Status::Limit,
            Refusal::Memory => Status::Memory,
            Refusal::ReadFault => Status::ReadFault,
            Refusal::WriteFault => Status::WriteFault,
        }
    }
}
