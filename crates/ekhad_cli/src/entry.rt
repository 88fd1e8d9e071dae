//! The whole program but for its three streams.

ghost use Rattle.std.specs.Prelude.{◌≡◌, ◌⊎◌, ℕ, List};
ghost use Rattle.std.specs.Process.{exit_status};
ghost use Rattle.ekhad_cli.specs.Refusals.{code_of};
ghost use Rattle.ekhad_cli.specs.Run.{IsRun, HasNoWords};

use crate::lines::refuse;
use crate::program::run;
use crate::refusal::Refusal;
use crate::status::Status;
use ek_io::{Sink, Source};
use std::alloc::{AllocError, Global};
use std::env;
use std::io::ErrorKind;
use std::process::ExitCode;
use std::rt::Env;

// The words after the program's name, none where they are no text.
fn words_of<R: Env + AllocGlobal>(rt: &R) -> Result<Vec<String>, AllocError> {
    match env::args(rt) {
        Ok(args) => args.skip(1).collect(rt.alloc()),
        Err(fault) if matches!(fault.kind(), ErrorKind::OutOfMemory) => Err(AllocError),
        Err(_) => Ok(Vec::new(rt.alloc())),
    }
}

/// Runs the program on the words that the runtime has for it, on its input and its two outputs, and ends with the status's code.
///
/// What a runtime has for words is told by no clause, so the run is one of some words; where there is no memory for them, nothing is
/// read, and the line says it.
pub fn main<R: Env + AllocGlobal, S: Source, O: Sink, E: Sink>(
    rt: &R,
    input: &mut S,
    out: &mut O,
    err: &mut E,
) -> ExitCode
    ensures ends { (status : Status) × (exit_status result ≡ code_of status)
        × (((words : List (List ℕ)) × IsRun S.left S.faults O.written O.faults E.written E.faults words status
        input.old input.new out.old out.new err.old err.new)
        ⊎ HasNoWords E.written E.faults status input.old input.new out.old out.new err.old err.new) }
{
    let Ok(words) = words_of(rt) else {
        let status = refuse(rt.alloc(), Refusal::Memory, err);
        return ExitCode::from(status.code());
    };
    let status = run(rt.alloc(), &words, input, out, err);
    ExitCode::from(status.code())
}
