//! Documents as texts.

ghost use Rattle.std.specs.Prelude.{◌≡◌, ◌≤◌, ◌++◌, length, OnOk, IfOk, string_bytes};
ghost use Rattle.std.specs.Fmt.{signed_decimal};
ghost use Rattle.ring_laws.specs.Meaning.{listed};
ghost use Rattle.document_text.specs.Spelling.{power_text, magnitude_text, polynomial_text};
ghost use Rattle.document_text.specs.Document.{document_text};
ghost use Rattle.cert_text.specs.PolynomialDocument.{in_k, polynomial_document};
ghost use Rattle.cert_text.specs.Printing.{numbers, monomial_in_k, placed_text};

use crate::documents::PolyDoc;
use poly_generic::Zn;
use ring_laws::{Ring, Whole};
use std::alloc::{AllocError, Global};

// `k`, or `k^power`, nothing at the power 0.
fn push_power(text: &mut String, power: u32) -> Result<(), AllocError>
    ensures { OnOk result (string_bytes text.new ≡ string_bytes text.old ++ power_text 107 power) }
{
    match power {
        0 => Ok(()),
        1 => text.push_str("k"),
        _ => write!(text, "k^{power}"),
    }
}

// The magnitude of a coefficient with its power of k.
fn push_magnitude(text: &mut String, magnitude: u128, power: u32) -> Result<(), AllocError>
    ensures { OnOk result (string_bytes text.new ≡ string_bytes text.old ++ magnitude_text magnitude (power_text 107 power)) }
{
    if power == 0 {
        return write!(text, "{magnitude}");
    }
    if magnitude == 1 {
        return push_power(text, power);
    }
    write!(text, "{magnitude}*")?;
    push_power(text, power)
}

// A monomial, with a plus only where it isn't the first.
fn push_monomial(
    text: &mut String,
    coefficient: Whole,
    power: u32,
    first: bool,
) -> Result<(), AllocError>
    ensures { OnOk result (string_bytes text.new ≡ string_bytes text.old ++ placed_text first (monomial_in_k coefficient.value power)) }
{
    let value = coefficient.value();
    if value < 0 {
        text.push_str("-")?;
    } else if !first {
        text.push_str("+")?;
    }
    push_magnitude(text, value.unsigned_abs(), power)
}

// The polynomial in k with these coefficients, from the power 0 up.
fn push_polynomial(text: &mut String, coefficients: &[Whole]) -> Result<(), AllocError>
    requires short { length coefficients.now ≤ 256 }
    ensures { OnOk result (string_bytes text.new ≡ string_bytes text.old ++ polynomial_text (in_k (listed (numbers coefficients.now)))) }
{
    let mut first = true;
    let mut power = coefficients.len();
    while power > 0 {
        power -= 1;
        let coefficient = coefficients[power];
        if coefficient.value() != 0 {
            push_monomial(text, coefficient, power as u32, first)?;
            first = false;
        }
    }
    if first {
        text.push_str("0")?;
    }
    Ok(())
}

// A polynomial in k as a text.
fn polynomial_string(alloc: Global, coefficients: &[Whole]) -> Result<String, AllocError>
    requires short { length coefficients.now ≤ 256 }
    ensures { IfOk result (λ text. string_bytes text ≡ polynomial_text (in_k (listed (numbers coefficients.now)))) }
{
    let mut text = String::new(alloc);
    push_polynomial(&mut text, coefficients)?;
    Ok(text)
}

// A number as a text.
fn number_string(alloc: Global, number: Whole) -> Result<String, AllocError>
    ensures { IfOk result (λ text. string_bytes text ≡ signed_decimal number.value) }
{
    number.value().to_string(alloc)
}

// The coefficients and the numbers of a document.
#[derive(Clone, Copy)]
struct Parts<'a> {
    poly: &'a [Whole],
    scale: Whole,
    multiplier: Whole,
    carrier_scale: Whole,
    y: &'a [Whole],
}

// The text of the document with these parts.
fn document_string(alloc: Global, parts: &Parts<'_>) -> Result<String, AllocError>
    requires short { length parts.now.poly.now ≤ 256 }
    requires short_y { length parts.now.y.now ≤ 256 }
    ensures { IfOk result (λ text. string_bytes text ≡ document_text (polynomial_document (listed (numbers parts.now.poly.now))
        parts.now.scale.value parts.now.multiplier.value parts.now.carrier_scale.value (listed (numbers parts.now.y.now)))) }
{
    let poly = polynomial_string(alloc, parts.poly)?;
    let y = polynomial_string(alloc, parts.y)?;
    let scale = number_string(alloc, parts.scale)?;
    let carrier_scale = number_string(alloc, parts.carrier_scale)?;
    let multiplier = number_string(alloc, parts.multiplier)?;
    format!(in alloc;
        "ekhad 1\n\
         command gosper\n\
         term poly {poly}; scale {scale}; nbase 1; kbase 1; up -; down -; over -; guard -\n\
         found 0\n\
         match -\n\
         q 1; -\n\
         r 1; -\n\
         a {multiplier}\n\
         K poly 1; scale {carrier_scale}; nbase 1; kbase 1; up -; down -; over -; guard -\n\
         Y {y}\n\
         D -\n\
         Rtop 1; -\n\
         Rbot 1; -\n\
         range -\n\
         end\n"
    )
}

/// The one text of a document. Only want of memory can prevent it.
pub fn print_poly_doc(alloc: Global, doc: &PolyDoc) -> Result<Vec<u8>, AllocError>
    ensures text { IfOk result (λ text. text.items ≡ document_text (polynomial_document (⟦<Zn as Ring>⟧.meaning doc.now.poly)
        doc.now.scale.value doc.now.multiplier.value doc.now.carrier_scale.value (⟦<Zn as Ring>⟧.meaning doc.now.y))) }
{
    let text = document_string(
        alloc,
        &Parts {
            poly: doc.poly.coefficients(),
            scale: doc.scale,
            multiplier: doc.multiplier,
            carrier_scale: doc.carrier_scale,
            y: doc.y.coefficients(),
        },
    )?;
    Ok(text.into_bytes())
}
