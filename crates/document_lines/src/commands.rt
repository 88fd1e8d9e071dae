//! The version and the command of a document.

ghost use Rattle.std.specs.Prelude.{◌≡◌, ◌≤◌, ℕ, IfOk, IfSome, MatchOption};
ghost use Rattle.std.specs.Fmt.{decimal};
ghost use Rattle.documents.specs.Documents.{Command};
ghost use Rattle.documents.specs.Views.{command_said};
ghost use Rattle.documents.specs.declared.documents.Version.{Version};
ghost use Rattle.document_lines.specs.DocumentTexts.{versions, commands};
ghost use Rattle.document_lines.specs.CommandLaws.{versions_within_line, commands_within_line};

use documents::{CommandWord, Version};
use spelled::{NumberBelow, Spelling, behind, is_same};
use std::alloc::{AllocError, Global};

/// The versions of documents, by their numbers.
#[derive(Clone, Copy)]
pub struct Versions;

impl Spelling for Versions {
    type Item = Version;

    ghost Value = { Version };

    ghost value_of = { λ v. v };

    ghost format = { λ _. versions };

    fn write(&self, version: &Version, text: &mut String) -> Result<(), AllocError> {
        match version {
            Version::One => text.push_str("1"),
        }
    }

    fn read(&self, _alloc: Global, text: &[u8]) -> Result<Option<Version>, AllocError> {
        if is_same(text, b"1") {
            return Ok(Some(Version::One));
        }
        Ok(None)
    }

    ghost within_line = { λ _. versions_within_line };
}

// An order of at most 6.
fn read_order(alloc: Global, text: &[u8]) -> Result<Option<u32>, AllocError>
    ensures read { (n : ℕ) → n ≤ 6 → text.now ≡ decimal n → IfOk result (λ found. MatchOption found ⊥ (λ order. order ≡ n)) }
    ensures small { IfOk result (λ found. IfSome found (λ order. order ≤ 6)) }
{
    match NumberBelow::new(7).read(alloc, text)? {
        Some(order) => Ok(u32::try_from(order).ok()),
        None => Ok(None),
    }
}

/// The commands of which documents are known: `gosper`, `ct J` and `zeil J`, with J of at most 6.
#[derive(Clone, Copy)]
pub struct Commands;

impl Spelling for Commands {
    type Item = CommandWord;

    ghost Value = { Command };

    ghost value_of = { command_said };

    ghost format = { λ _. commands };

    fn write(&self, command: &CommandWord, text: &mut String) -> Result<(), AllocError> {
        match command {
            CommandWord::Gosper => text.push_str("gosper"),
            CommandWord::Ct(order) => write!(text, "ct {order}"),
            CommandWord::Zeil(most) => write!(text, "zeil {most}"),
            CommandWord::Wz | CommandWord::Companion(_) | CommandWord::Hyper => Ok(()),
        }
    }

    fn read(&self, alloc: Global, text: &[u8]) -> Result<Option<CommandWord>, AllocError> {
        if let Some(order) = behind(text, b"ct ") {
            return Ok(read_order(alloc, order)?.map(CommandWord::Ct));
        }
        if let Some(most) = behind(text, b"zeil ") {
            return Ok(read_order(alloc, most)?.map(CommandWord::Zeil));
        }
        Ok(Some(CommandWord::Gosper))
    }

    ghost within_line = { λ _. commands_within_line };
}
