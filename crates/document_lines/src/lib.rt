//! Documents as texts, line by line: what `gosper`, `ct` and `zeil` answer.
//!
//! Input: a document, or a text. Output: the one text of the document; the document of the text, or its first bad line.
//! Which claims and documents have which text is in `specs/ClaimTexts.antt` and `specs/DocumentTexts.antt`; which documents are well formed is
//! in `documents`, what the first bad line of a text is in `exact_texts`.
//! Read `words.rt` and `worded_line.rt` (a line behind its word), the spellings within a line (`normal_matches.rt`, `ranges.rt`, `witnesses.rt`,
//! `headings.rt`, `commands.rt`), `forms.rt`, `claims.rt` (one claim), `claim_lists.rt` (the claims of a command), `document.rt` and `texts.rt`.
#![tactic(auto)]

mod claim_lists;
mod claims;
mod commands;
mod document;
mod faults;
mod forms;
mod headings;
mod laws;
mod normal_matches;
mod ranges;
mod texts;
mod witnesses;
mod worded_line;
mod words;

pub use commands::{Commands, Versions};
pub use document::Documents;
pub use faults::DocFault;
pub use forms::NormalForms;
pub use headings::{Heading, Headings};
pub use laws::{first_bad_line_of_documents, text_determines_document};
pub use normal_matches::NormalMatches;
pub use ranges::Ranges;
pub use texts::{print_doc, read_doc};
pub use witnesses::Witnesses;
pub use worded_line::WordedLine;
pub use words::LineWord;

#[cfg(test)]
mod tests;
