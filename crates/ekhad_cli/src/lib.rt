//! The program as a library: from the words and the bytes that come in to the bytes that go out.
//!
//! Input: the words after the program's name, a source, two sinks. Output: a `Status`, by `run`.
//! What an answer is stands in `specs/Answer.antt`, what each command writes in `specs/Gosper.antt` and `Check.antt`, why it refuses in
//! `Commands.antt`, the lines of the refusals in `Refusals.antt`, what a run claims of its outputs in `Run.antt`.
//! Read `words.rt` (the commands), `status.rt`, `refusal.rt` and `lines.rt` (how a run ends, and what it then says), `small_terms.rt`
//! (the terms that are answered), `antidifference.rt` (the numbers of the claim), `gosper.rt` (its document), `answering.rt` (from a text to the
//! text of its document), `orders.rt` (the limits of a term that isn't answered yet), `checking.rt` (the verdict on a document), `program.rt`,
//! `entry.rt` (the program but for its streams); `laws.rt` has what is so of the commands together.
#![tactic(auto)]

mod answering;
mod antidifference;
mod checking;
mod entry;
mod gosper;
mod laws;
mod lines;
mod orders;
mod output;
#[cfg(test)]
mod outside_tests;
mod program;
mod refusal;
mod small_terms;
mod status;
#[cfg(test)]
mod test_runs;
#[cfg(test)]
mod tests;
mod words;

pub use entry::main;
pub use laws::{answerable_texts_are_answered, answers_are_accepted};
pub use lines::refuse;
pub use program::run;
pub use refusal::{Refusal, RunLimit, SyntaxKind};
pub use status::Status;
pub use words::Command;
