//! Whole documents from texts, and their texts.

ghost use Rattle.std.specs.Prelude.{◌≡◌, ℕ, Err, IfOk, MatchResult};
ghost use Rattle.exact_texts.specs.FirstBadLine.{IsFirstBadLine, carried};
ghost use Rattle.documents.specs.Documents.{Document};
ghost use Rattle.documents.specs.WellFormed.{IsWellFormed};
ghost use Rattle.documents.specs.Views.{document_of};
ghost use Rattle.documents.specs.declared.documents.Version.TheVariants.{One};
ghost use Rattle.document_lines.specs.DocumentTexts.{document_text, document_lines};

use crate::document::{Documents, write_document};
use crate::faults::DocFault;
use documents::{Doc, Version};
use spelled::{TextFault, read_text};
use std::alloc::{AllocError, Global};

/// The one text of a well-formed document.
///
/// # Errors
/// There is no memory.
pub fn print_doc(alloc: Global, document: &Doc) -> Result<Vec<u8>, AllocError>
    requires well_formed { IsWellFormed One (document_of document.now) }
    ensures text { IfOk result (λ text. text.items ≡ document_text One (document_of document.now)) }
{
    let mut text = String::new(alloc);
    write_document(&mut text, Version::One, document)?;
    Ok(text.into_bytes())
}

/// The one well-formed document with this text.
///
/// # Errors
/// `DocFault::Line` with the first line that no document has there after the same lines before it, or `DocFault::Memory`.
pub fn read_doc(alloc: Global, text: &[u8]) -> Result<Doc, DocFault>
    ensures document { IfOk result (λ d. IsWellFormed One (document_of d) × (text.now ≡ document_text One (document_of d))) }
    ensures line { (at : ℕ) → result ≡ Err (DocFault.Line at)
        → (line : ℕ) × IsFirstBadLine document_lines text.now line × (at ≡ carried line) }

    // What is printed is read back.
    ensures again { (d : Document) → IsWellFormed One d → text.now ≡ document_text One d
        → MatchResult result (λ found. document_of found ≡ d) (λ fault. fault ≡ DocFault.Memory) }
{
    match read_text(alloc, &Documents, text) {
        Ok((_, document)) => Ok(document),
        Err(TextFault::Line { at }) => Err(DocFault::Line { at }),
        Err(TextFault::Memory) => Err(DocFault::Memory),
    }
}
