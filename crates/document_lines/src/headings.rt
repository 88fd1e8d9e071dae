//! The first lines of claims.

ghost use Rattle.std.specs.Prelude.{◌≤◌};
ghost use Rattle.document_lines.specs.Headings.{headings};
ghost use Rattle.document_lines.specs.HeadingLaws.{headings_within_line};
ghost use Rattle.document_lines.specs.declared.headings.Heading.{Heading};

use spelled::{Spelling, behind};
use std::alloc::{AllocError, Global};

/// How a claim begins.
#[derive(Clone, Copy, Debug, PartialEq, Eq, Drop)]
pub enum Heading {
    /// With `found`: a recurrence follows.
    Found,
    /// With `empty`: there is none.
    Empty,
}

/// The headings of claims of an order, which is at most 6: `found J` and `empty J`.
#[derive(Clone, Copy)]
pub struct Headings {
    /// The order.
    pub order: u32,
    ghost small: { order ≤ 6 },
}

impl Spelling for Headings {
    type Item = Heading;

    ghost Value = { Heading };

    ghost value_of = { λ h. h };

    ghost format = { λ spelling. headings spelling.order };

    fn write(&self, heading: &Heading, text: &mut String) -> Result<(), AllocError> {
        match heading {
            Heading::Found => write!(text, "found {}", self.order),
            Heading::Empty => write!(text, "empty {}", self.order),
        }
    }

    fn read(&self, _alloc: Global, text: &[u8]) -> Result<Option<Heading>, AllocError> {
        Ok(Some(match behind(text, b"found") {
            Some(_) => Heading::Found,
            None => Heading::Empty,
        }))
    }

    ghost within_line = { λ spelling. headings_within_line spelling.order spelling.small };
}
