//! Documents from texts.
//!
//! What a text says in its five fields is read first, in more spellings than one. The text is then compared with the one text of
//! the document that says so: where they differ first, no document goes on as the text does.

ghost use Rattle.std.specs.Prelude.{◌≡◌, ℕ, suc, List, Err, IfOk};
ghost use Rattle.document_text.specs.Document.{document_text};
ghost use Rattle.cert_text.specs.Readable.{Contents, contents, document_of, AreReadable, IsTextOf, SameLines, IsFirstBadLine, carried};
ghost use Rattle.cert_text.specs.Reading.{counted};

use crate::cutting::field;
use crate::documents::PolyDoc;
use crate::faults::DocFault;
use crate::fields::{
    number_of_field, polynomial_of_field, scale_of_field, term_polynomial_of_field,
};
use crate::printing::print_poly_doc;
use poly_generic::Zn;
use ring_laws::Ring;
use std::alloc::{AllocError, Global};

/// The one document that has this text.
///
/// `Line` comes exactly where no document has it, and names the first line that no document has there after the same lines
/// before it. A document is one of a polynomial of degree 0 to 4, with scales other than 0 and numbers and lists within bounds.
pub fn read_poly_doc(alloc: Global, text: &[u8]) -> Result<PolyDoc, DocFault>
    ensures document { IfOk result (λ doc. IsTextOf text.now (contents (⟦<Zn as Ring>⟧.meaning doc.poly) doc.scale.value doc.multiplier.value
        doc.carrier_scale.value (⟦<Zn as Ring>⟧.meaning doc.y))) }
    ensures line { (at : ℕ) → result ≡ Err (DocFault.Line at) → (line : ℕ) × IsFirstBadLine text.now line × (at ≡ carried line) }
{
    let Ok(doc) = candidate(alloc, text) else {
        return Err(DocFault::Memory);
    };
    let Ok(printed) = print_poly_doc(alloc, &doc) else {
        return Err(DocFault::Memory);
    };
    if printed.as_slice() == text {
        return Ok(doc);
    }
    Err(DocFault::Line {
        at: line_of_difference(text, &printed),
    })
}

// The document that a text is the text of, if it is one of any: each of its fields has what the text says there.
fn candidate(alloc: Global, text: &[u8]) -> Result<PolyDoc, AllocError>
    ensures readable { IfOk result (λ doc. AreReadable (contents (⟦<Zn as Ring>⟧.meaning doc.poly) doc.scale.value doc.multiplier.value
        doc.carrier_scale.value (⟦<Zn as Ring>⟧.meaning doc.y))) }
    ensures lines { (d : Contents) → AreReadable d → (n : ℕ) → SameLines n text.now (document_text (document_of d))
        → IfOk result (λ doc. SameLines n text.now (document_text (document_of (contents (⟦<Zn as Ring>⟧.meaning doc.poly) doc.scale.value
        doc.multiplier.value doc.carrier_scale.value (⟦<Zn as Ring>⟧.meaning doc.y))))) }
    ensures whole { (d : Contents) → AreReadable d → text.now ≡ document_text (document_of d)
        → IfOk result (λ doc. text.now ≡ document_text (document_of (contents (⟦<Zn as Ring>⟧.meaning doc.poly) doc.scale.value
        doc.multiplier.value doc.carrier_scale.value (⟦<Zn as Ring>⟧.meaning doc.y)))) }
{
    let (poly, rest) = field(text, b"ekhad 1\ncommand gosper\nterm poly ", b";");
    let (scale, rest) = field(rest, b"; scale ", b";");
    let (multiplier, rest) = field(
        rest,
        b"; nbase 1; kbase 1; up -; down -; over -; guard -\nfound 0\nmatch -\nq 1; -\nr 1; -\na ",
        b"\n",
    );
    let (carrier_scale, rest) = field(rest, b"\nK poly 1; scale ", b";");
    let (y, _rest) = field(
        rest,
        b"; nbase 1; kbase 1; up -; down -; over -; guard -\nY ",
        b"\n",
    );
    Ok(PolyDoc {
        poly: term_polynomial_of_field(alloc, poly)?,
        scale: scale_of_field(scale),
        multiplier: number_of_field(multiplier),
        carrier_scale: scale_of_field(carrier_scale),
        y: polynomial_of_field(alloc, y)?,
    })
}

// The line at which two texts part, counted from 1.
fn line_of_difference(text: &[u8], other: &[u8]) -> u32
    ensures parts { (same : ℕ) × SameLines same text.now other.now × (¬ SameLines (suc same) text.now other.now) × (result ≡ carried (suc same)) }
{
    let mut line: u32 = 1;
    let mut at = 0;
    while at < text.len() && at < other.len() && text[at] == other[at] {
        line = line_behind(text[at], line);
        at += 1;
    }
    line
}

// The line behind a byte of this line.
fn line_behind(byte: u8, line: u32) -> u32
    ensures counts { (passed : ℕ) → line ≡ carried (suc passed) → result ≡ carried (suc (counted byte passed)) }
{
    if byte == b'\n' {
        line.saturating_add(1)
    } else {
        line
    }
}
