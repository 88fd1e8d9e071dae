//! Documents and their texts.
//!
//! Input: a document, or a text. Output: the document's one text, by `print_poly_doc`, or the one document of the text, by
//! `read_poly_doc`. What the text of a document is stands in the crate `document_text`; which document a `PolyDoc` is stands in
//! `specs/PolynomialDocument.antt`, and which documents are read, and which line of another text is at fault, in `specs/Readable.antt`.
//! Read `documents.rt` and `faults.rt` (the types), then `printing.rt`, then `reading.rt` and below it `cutting.rt`, `numbers.rt`,
//! `polynomials.rt`, `fields.rt`.
#![tactic(auto)]

mod cutting;
mod documents;
mod faults;
mod fields;
mod laws;
mod numbers;
mod polynomials;
mod printing;
mod reading;

pub use documents::PolyDoc;
pub use faults::DocFault;
pub use laws::{one_outcome, text_determines_contents};
pub use printing::print_poly_doc;
pub use reading::read_poly_doc;

#[cfg(test)]
mod tests;
