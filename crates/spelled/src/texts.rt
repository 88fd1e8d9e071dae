//! Whole texts: the one text of an item, and the item of a text or the first bad line.

ghost use Rattle.std.specs.Prelude.{◌≡◌, ℕ, Err, IfOk, MatchResult, string_bytes};
ghost use Rattle.exact_texts.specs.FirstBadLine.{IsFirstBadLine, carried};

use crate::faults::{LineFault, TextFault};
use crate::line_spelling::LineSpelling;
use crate::lines::Lines;
use crate::whole::line_number;
use std::alloc::{AllocError, Global};

/// The text of an item.
pub fn write_text<S: LineSpelling>(
    alloc: Global,
    spelling: &S,
    item: &S::Item,
) -> Result<String, AllocError>
    requires { (S.format spelling.now).Has (S.value_of item.now) }
    ensures text { IfOk result (λ text. string_bytes text ≡ (S.format spelling.now).text (S.value_of item.now)) }
{
    let mut text = String::new(alloc);
    spelling.write_lines(item, &mut text)?;
    Ok(text)
}

/// The item of a whole text, or the first line that no item has there after the same lines before it.
pub fn read_text<S: LineSpelling>(
    alloc: Global,
    spelling: &S,
    text: &[u8],
) -> Result<S::Item, TextFault>
    ensures item { IfOk result (λ x. (S.format spelling.now).Has (S.value_of x) × (text.now ≡ (S.format spelling.now).text (S.value_of x))) }
    ensures line { (at : ℕ) → result ≡ Err (TextFault.Line at)
        → (line : ℕ) × IsFirstBadLine (S.format spelling.now) text.now line × (at ≡ carried line) }

    // What is written is read again.
    ensures again { (v : S.Value) → (S.format spelling.now).Has v → text.now ≡ (S.format spelling.now).text v
        → MatchResult result (λ x. S.value_of x ≡ v) (λ fault. fault ≡ TextFault.Memory) }
{
    let mut lines = Lines { rest: text };
    match spelling.read_lines(alloc, &mut lines) {
        Ok(item) => {
            if lines.rest.is_empty() {
                Ok(item)
            } else {
                Err(TextFault::Line {
                    at: line_number(text, lines.rest),
                })
            }
        }
        Err(LineFault::Line) => Err(TextFault::Line {
            at: line_number(text, lines.rest),
        }),
        Err(LineFault::Memory) => Err(TextFault::Memory),
    }
}
