//! Why a text was not read.

ghost use Rattle.std.specs.Prelude.{◌≡◌};
ghost use Rattle.term_text.specs.declared.fault.TextFault.TheVariants.{Memory};

use std::alloc::AllocError;
use thiserror::Error;

/// Why a text was not read: its first fault, with the place of a byte, counted from 0.
#[derive(Clone, Copy, Debug, PartialEq, Eq, Drop, Error)]
pub enum TextFault {
    /// No text of the grammar goes on so: a token that does not fit, a byte that no token has, or the end of the text, at its
    /// length, where more is needed and no parenthesis is open.
    #[error("unexpected at {at}")]
    Unexpected { at: u32 },
    /// A name other than `n`, `k` and `binomial`.
    #[error("unknown name at {at}")]
    UnknownName { at: u32 },
    /// The end of the text, where more is needed: the last parenthesis that is open.
    #[error("unclosed at {at}")]
    UnclosedParen { at: u32 },
    /// No token at all.
    #[error("empty input")]
    EmptyInput,
    /// A byte of 128 or more.
    #[error("not ascii at {at}")]
    NotAscii { at: u32 },
    /// The 65th open parenthesis.
    #[error("nesting at {at}")]
    Nesting { at: u32 },
    /// Digits whose value is 2^127 or more.
    #[error("literal too large at {at}")]
    LiteralTooLarge { at: u32 },
    /// Memory was refused. This may come in place of any other answer.
    #[error("out of memory")]
    Memory,
}

impl From<AllocError> for TextFault {
    ghost from_gives = { λ _ e. e ≡ Memory };

    fn from(_e: AllocError) -> TextFault {
        TextFault::Memory
    }
}
