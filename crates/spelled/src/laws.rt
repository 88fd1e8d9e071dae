//! The laws of every spelling. The functions do nothing: the contract of each is a law.

ghost use Rattle.std.specs.Prelude.{◌≡◌, ◌≢◌, ◌++◌, ℕ, suc, List};
ghost use Rattle.exact_texts.specs.Texts.{InOneLine};
ghost use Rattle.exact_texts.specs.Formats.{line_of};
ghost use Rattle.exact_texts.specs.Lines.{AreLines, StopsAt};
ghost use Rattle.exact_texts.specs.FirstBadLine.{newlines, IsFirstBadLine};

use crate::line_spelling::LineSpelling;
use crate::spelled::Spelling;

/// A text within a line tells its value: two values with one text are one value.
pub fn text_tells_value<S: Spelling>(spelling: &S)
    ensures told { (v w : S.Value) → (S.format spelling.now).Has v → (S.format spelling.now).Has w
        → (S.format spelling.now).text v ≡ (S.format spelling.now).text w → v ≡ w }
    ensures in_one_line { (v : S.Value) → (S.format spelling.now).Has v → InOneLine ((S.format spelling.now).text v) }
    ensures some { (v : S.Value) × (S.format spelling.now).Has v }
{}

/// A line of a value behind a word tells the value and where it ends, whatever follows it.
pub fn line_tells_value<S: Spelling>(word: &[u8], spelling: &S)
    requires in_one_line { InOneLine word.now }
    ensures told { (v w : S.Value) (r s : List ℕ) → (S.format spelling.now).Has v → (S.format spelling.now).Has w
        → (line_of word.now (S.format spelling.now)).text v ++ r ≡ (line_of word.now (S.format spelling.now)).text w ++ s → (v ≡ w) × (r ≡ s) }
{}

/// The lines of a value tell the value and where they end, whatever follows them.
pub fn lines_tell_value<S: LineSpelling>(spelling: &S)
    ensures told { (v w : S.Value) → (S.format spelling.now).Has v → (S.format spelling.now).Has w
        → (S.format spelling.now).text v ≡ (S.format spelling.now).text w → v ≡ w }
    ensures in_front { (v w : S.Value) (r s : List ℕ) → (S.format spelling.now).Has v → (S.format spelling.now).Has w
        → (S.format spelling.now).text v ++ r ≡ (S.format spelling.now).text w ++ s → (v ≡ w) × (r ≡ s) }
    ensures whole_lines { (v : S.Value) → (S.format spelling.now).Has v → AreLines ((S.format spelling.now).text v) }
    ensures some { (v : S.Value) × (S.format spelling.now).Has v }
{}

/// A text has at most one first bad line; the text of a value has none, and a text of no value isn't without one.
pub fn first_bad_line_is_one<S: LineSpelling>(spelling: &S)
    ensures one { (text : List ℕ) (a b : ℕ) → IsFirstBadLine (S.format spelling.now) text a
        → IsFirstBadLine (S.format spelling.now) text b → a ≡ b }
    ensures not_both { (v : S.Value) (at : ℕ) → (S.format spelling.now).Has v
        → ¬ IsFirstBadLine (S.format spelling.now) ((S.format spelling.now).text v) at }
    ensures not_neither { (text : List ℕ) → ((v : S.Value) → (S.format spelling.now).Has v → text ≢ (S.format spelling.now).text v)
        → ¬ ((at : ℕ) → ¬ IsFirstBadLine (S.format spelling.now) text at) }

    // The line in front of which reading stops.
    ensures stopped { (text rest : List ℕ) → (stops : StopsAt (S.format spelling.now) text rest)
        → IsFirstBadLine (S.format spelling.now) text (suc (newlines stops.front)) }
{}
