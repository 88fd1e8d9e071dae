//! A run of the program: its words, its input and its two outputs.

ghost use Rattle.std.specs.Prelude.{◌≡◌, ◌≢◌, ◌↔◌, ◌≤◌, ◌<◌, ℕ, suc, List, length, map, string_bytes, Some, Err, IfOk, IfErr, IfSome, OnOk};
ghost use Rattle.std.specs.Io.KnownBytes.{IsAtEnd};
ghost use Rattle.ek_io.specs.Faults.{Rose};
ghost use Rattle.ek_io.specs.Transfer.{TakesBytes};
ghost use Rattle.ekhad_cli.specs.Refusals.{line_text, status_of, ComesLate, GrewByLine};
ghost use Rattle.ekhad_cli.specs.Commands.{AreWordsOf, most_bytes, byte_limit, IsOutput, IsCause};
ghost use Rattle.ekhad_cli.specs.Converted.{refusal_of_end};
ghost use Rattle.ekhad_cli.specs.Run.{IsAnswered, HasReadAll, AreHeld, GrewByOutput, GrewByFront, IsCaused, TakesTooMany};

use crate::answering::answer_term;
use crate::checking::check;
use crate::lines::refuse;
use crate::output::Output;
use crate::refusal::{Refusal, RunLimit};
use crate::status::Status;
use crate::words::{Command, command_of};
use ek_io::{ReadEnd, Sink, Source, read_all, write_all_counted};
use std::alloc::Global;

// The most bytes that a command reads.
fn most_bytes_of(command: Command) -> usize
    ensures most { result ≡ most_bytes command }
    ensures few { result ≤ 16777216 }
{
    match command {
        Command::Gosper => 65_536,
        Command::Check => 16_777_216,
    }
}

// The limit that this is.
fn byte_limit_of(command: Command) -> RunLimit
    ensures limit { result ≡ byte_limit command }
{
    match command {
        Command::Gosper => RunLimit::InputBytes,
        Command::Check => RunLimit::DocumentBytes,
    }
}

// How a source is refused that isn't read to its end.
fn refusal_of(command: Command, end: ReadEnd) -> Refusal
    ensures exact { result ≡ refusal_of_end command end }
{
    match end {
        ReadEnd::Fault => Refusal::ReadFault,
        ReadEnd::Limit(counted) => Refusal::Limit {
            limit: byte_limit_of(command),
            counted,
        },
        ReadEnd::Memory => Refusal::Memory,
    }
}

// The bytes of a source, up to its end.
fn bytes_of<S: Source>(alloc: Global, command: Command, input: &mut S) -> Result<Vec<u8>, Refusal>
    ensures whole { IfOk result (λ bytes. AreHeld (S.left input.old) bytes.items) }
    ensures end { OnOk result (IsAtEnd (S.left input.new)) }
    ensures within { IfOk result (λ bytes. length bytes.items ≤ most_bytes command) }
    ensures cause { IfErr result (λ refusal. (bytes : List ℕ) × AreHeld (S.left input.old) bytes × IsCause command bytes refusal) }
    ensures early { IfErr result (λ refusal. ¬ ComesLate refusal) }
    ensures limit_taken { (limit : RunLimit) (counted : ℕ) → result ≡ Err (Refusal.Limit limit counted)
        → TakesBytes (S.left input.old) (S.left input.new) (suc (most_bytes command)) }
    ensures read_fault { result ≡ Err Refusal.ReadFault → Rose (S.faults input.old) (S.faults input.new) }
    ensures usage { result ≢ Err Refusal.Usage }
    ensures write_fault { result ≢ Err Refusal.WriteFault }
{
    match read_all(alloc, input, most_bytes_of(command)) {
        Ok(bytes) => Ok(bytes),
        Err(end) => Err(refusal_of(command, end)),
    }
}

// What the command of the words writes of the bytes of a source, which is read to its end.
fn answer<S: Source>(alloc: Global, words: &[String], input: &mut S) -> Result<Output, Refusal>
    ensures output { IfOk result (λ output. (command : Command) × (bytes : List ℕ) × AreWordsOf command (map string_bytes words.now)
        × AreHeld (S.left input.old) bytes × (length bytes ≤ most_bytes command) × IsOutput command bytes output.status output.text.items) }
    ensures answered { IfOk result (λ output. IsAnswered output.status) }
    ensures end { OnOk result (IsAtEnd (S.left input.new)) }
    ensures late { IfErr result (λ refusal. ComesLate refusal → IsAtEnd (S.left input.new)) }
    ensures cause { IfErr result (IsCaused (map string_bytes words.now) (S.left input.old)) }
    ensures usage { result ≡ Err Refusal.Usage ↔ ((command : Command) → ¬ AreWordsOf command (map string_bytes words.now)) }
    ensures unread { result ≡ Err Refusal.Usage → input.new ≡ input.old }
    ensures limit_taken { IfErr result (λ refusal. status_of refusal ≡ Status.Limit
        → TakesTooMany (map string_bytes words.now) (S.left input.old) (S.left input.new)) }
    ensures read_fault { result ≡ Err Refusal.ReadFault → Rose (S.faults input.old) (S.faults input.new) }
    ensures write_fault { result ≢ Err Refusal.WriteFault }
{
    let Some(command) = command_of(words) else {
        return Err(Refusal::Usage);
    };
    let bytes = bytes_of(alloc, command, input)?;
    match command {
        Command::Gosper => answer_term(alloc, &bytes),
        Command::Check => check(alloc, &bytes),
    }
}

/// Runs the program on its words (those after its name), its input and its two outputs.
///
/// The word `gosper` reads a term and writes its document to `out`; `check` reads a document and writes the verdict on it. A refusal
/// writes nothing to `out` and a line to `err`. Where a source or a sink tells its bytes, the clauses speak of them; what they say of
/// the object itself, and of its faults, holds for every one.
pub fn run<S: Source, O: Sink, E: Sink>(
    alloc: Global,
    words: &[String],
    input: &mut S,
    out: &mut O,
    err: &mut E,
) -> Status
    // An answer: `out` grew by what the command writes of the bytes that the source held, and `err` is as it was.
    ensures written { IsAnswered result → (command : Command) × (bytes : List ℕ) × AreWordsOf command (map string_bytes words.now)
        × AreHeld (S.left input.old) bytes × GrewByOutput command bytes result (O.written out.old) (O.written out.new) }
    ensures no_line { IsAnswered result → err.new ≡ err.old }

    // The whole input was read then, and wherever it is the text or the output that is at fault.
    ensures end { HasReadAll result → IsAtEnd (S.left input.new) }

    // A refusal leaves `out` as it was; a fault in writing leaves a front of such a text.
    ensures quiet { ¬ IsAnswered result → result ≢ Status.WriteFault → out.new ≡ out.old }
    ensures front { result ≡ Status.WriteFault → (command : Command) × (bytes : List ℕ) × AreWordsOf command (map string_bytes words.now)
        × AreHeld (S.left input.old) bytes × GrewByFront command bytes (O.written out.old) (O.written out.new) }

    // It has its cause, and `err` grew by its one line, or by a front of it where the count of faults of `err` rose.
    ensures line { ¬ IsAnswered result → (refusal : Refusal) × (result ≡ status_of refusal)
        × IsCaused (map string_bytes words.now) (S.left input.old) refusal × (ComesLate refusal → IsAtEnd (S.left input.new))
        × GrewByLine (E.written err.old) (E.written err.new) (line_text refusal) (Rose (E.faults err.old) (E.faults err.new)) }

    // What else is known of some of them. Want of memory may come in place of any but Usage.
    ensures usage { result ≡ Status.Usage ↔ ((command : Command) → ¬ AreWordsOf command (map string_bytes words.now)) }
    ensures unread { result ≡ Status.Usage → input.new ≡ input.old }
    ensures limit_taken { result ≡ Status.Limit → TakesTooMany (map string_bytes words.now) (S.left input.old) (S.left input.new) }
    ensures read_fault { result ≡ Status.ReadFault → Rose (S.faults input.old) (S.faults input.new) }
    ensures write_fault { result ≡ Status.WriteFault → Rose (O.faults out.old) (O.faults out.new) }
{
    let output = match answer(alloc, words, input) {
        Ok(output) => output,
        Err(refusal) => return refuse(alloc, refusal, err),
    };
    match write_all_counted(out, &output.text) {
        Ok(()) => output.status,
        Err(_) => refuse(alloc, Refusal::WriteFault, err),
    }
}
