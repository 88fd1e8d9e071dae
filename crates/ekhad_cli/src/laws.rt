//! What is so of the commands together. The functions here do nothing: the contract of each is a law.

ghost use Rattle.std.specs.Prelude.{ℕ, List, Some};
ghost use Rattle.ekhad_cli.specs.declared.words.Command.{Command};
ghost use Rattle.ekhad_cli.specs.declared.refusal.Refusal.{Refusal};
ghost use Rattle.ekhad_cli.specs.Gosper.{IsAnswerText};
ghost use Rattle.ekhad_cli.specs.Commands.{AreWordsOf, IsCause, IsAlwaysAccepted};
ghost use Rattle.ekhad_cli.specs.Refusals.{IsOutside};
ghost use Rattle.ekhad_cli.specs.Answerable.{IsAnswerable};
ghost use Rattle.ekhad_cli.specs.Run.{IsCaused};

/// What `gosper` writes, `check` accepts.
pub fn answers_are_accepted()
    ensures accepted { (term text : List ℕ) → IsAnswerText term text → IsAlwaysAccepted text }
{}

/// A text that a command answers is refused only for memory or the outside: so a run on it, with the words of the command and no fault
/// of the source and of the output, ends with Found or Empty, or with Memory.
pub fn answerable_texts_are_answered()
    ensures cause { (command : Command) (text : List ℕ) → IsAnswerable command text
        → (refusal : Refusal) → IsCause command text refusal → IsOutside refusal }
    ensures run { (words : List (List ℕ)) (command : Command) (text : List ℕ) → AreWordsOf command words → IsAnswerable command text
        → (refusal : Refusal) → IsCaused words (Some text) refusal → IsOutside refusal }
{}
