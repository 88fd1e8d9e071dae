//! Texts that tell what they spell: formats, lines, lists of items, and the first bad line of a text.
//!
//! There is no code here: `specs/` has the definitions, and `proofs/` their laws, for crates that write and read such texts.
//! A format says which values have a text, and which. The functions do nothing: the contract of each is a law of some formats.
//! The laws of every format are functions of the crate `spelled`, since a clause speaks of formats one by one.
#![tactic(auto)]

ghost use Rattle.std.specs.Prelude.{◌≤◌, ◌^◌, ℕ, suc, codes, List};
ghost use Rattle.exact_texts.specs.Texts.{InOneLine};
ghost use Rattle.exact_texts.specs.Formats.{line_of, in_turn};
ghost use Rattle.exact_texts.specs.Lines.{AreWithinLine, AreLineTexts};
ghost use Rattle.exact_texts.specs.Numbers.{numbers_below, whole_numbers};
ghost use Rattle.exact_texts.specs.Lists.{items_of, parts_of, optional};
ghost use Rattle.exact_texts.specs.Powered.{powered};
ghost use Rattle.exact_texts.specs.Beside.{beside};
ghost use Rattle.exact_texts.specs.Nothing.{nothing};
ghost use Rattle.exact_texts.specs.Sums.{sums};

/// The text of a number, of a list of numbers, of sums and of sums with powers stands in one line and tells the value.
pub fn texts_tell_values()
    ensures numbers { (bound : ℕ) → 1 ≤ bound → bound ≤ 2 ^ 127 → AreWithinLine (numbers_below bound) }
    ensures wholes { AreWithinLine whole_numbers }
    ensures lists { AreWithinLine (items_of whole_numbers) }
    ensures parts { AreWithinLine (parts_of whole_numbers) }
    ensures optional_number { AreWithinLine (optional whole_numbers) }
    ensures range { AreWithinLine (beside whole_numbers (codes " to ") whole_numbers) }
    ensures sum { AreWithinLine sums }
    ensures sums_with_powers { AreWithinLine (items_of (powered sums)) }
{}

/// Lines tell their values one after another, also in front of any other text.
pub fn lines_tell_values()
    ensures one_line { (word : List ℕ) → InOneLine word → AreLineTexts (line_of word whole_numbers) }
    ensures two_lines { AreLineTexts (in_turn (line_of (codes "poly ") sums) (λ _. line_of (codes "end") nothing)) }

    // What the second line may be hangs on the first.
    ensures hanging { AreLineTexts (in_turn (line_of (codes "first ") (numbers_below (2 ^ 64)))
        (λ first. line_of (codes "again ") (numbers_below (suc first)))) }
{}
