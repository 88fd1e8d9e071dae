//! The words of the program.

ghost use Rattle.std.specs.Prelude.{◌≡◌, ◌↔◌, [], ◌∷◌, ℕ, List, map, string_bytes, codes, IsTrue, IfSome, IsNone};
ghost use Rattle.ekhad_cli.specs.Commands.{AreWordsOf};

/// What the words ask for.
#[derive(Clone, Copy, Debug, PartialEq, Eq, Drop)]
pub enum Command {
    /// `gosper`: a term is read, and the document of its antidifference written.
    Gosper,
    /// `check`: a document is read, and the verdict on its claim written.
    Check,
}

// Whether a word is `gosper`.
fn is_gosper(word: &str) -> bool
    ensures same { IsTrue result ↔ (word.now ≡ codes "gosper") }
{
    word == "gosper"
}

// Whether a word is `check`.
fn is_check(word: &str) -> bool
    ensures same { IsTrue result ↔ (word.now ≡ codes "check") }
{
    word == "check"
}

// The command of one word.
fn command_of_word(word: &str) -> Option<Command>
    ensures command { IfSome result (λ command. AreWordsOf command (word.now ∷ [])) }
    ensures none { IsNone result → (command : Command) → AreWordsOf command (word.now ∷ []) → ⊥ }
{
    if is_gosper(word) {
        Some(Command::Gosper)
    } else if is_check(word) {
        Some(Command::Check)
    } else {
        None
    }
}

/// The command that the words after the program's name are those of.
pub(crate) fn command_of(words: &[String]) -> Option<Command>
    ensures command { IfSome result (λ command. AreWordsOf command (map string_bytes words.now)) }
    ensures none { IsNone result → (command : Command) → AreWordsOf command (map string_bytes words.now) → ⊥ }
{
    match words {
        [word] => command_of_word(word.as_str()),
        _ => None,
    }
}
