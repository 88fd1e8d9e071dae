//! Documents and their one text: the definitions that contracts cite, and the law that the text tells all.
//!
//! `specs/` has the definitions, in this order: Spelling (numbers, fractions, polynomials), TermText (forms, factors, proper terms),
//! Document (the records of a document, and its lines), WellFormed (the bounds that a document keeps).
//! `proofs/` reads a text back, piece by piece. The function here does nothing: its contract is a law.
#![tactic(auto)]

ghost use Rattle.std.specs.Prelude.{◌≡◌};
ghost use Rattle.document_text.specs.Document.{Document, document_text};
ghost use Rattle.document_text.specs.WellFormed.{IsWellFormed};

/// The text of a well-formed document determines it: two well-formed documents with one text are one document, field by field.
///
/// So whoever knows the text knows every number, every polynomial and every form of the document, and nothing that the document
/// says is lost in its text. Neither document is bounded in length beyond what makes it well formed.
pub fn text_determines_document()
    ensures one_document { (a b : Document) → IsWellFormed a → IsWellFormed b → document_text a ≡ document_text b → a ≡ b }
{}
