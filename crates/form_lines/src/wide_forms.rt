//! Linear forms in n, k and x.

ghost use Rattle.std.specs.Prelude.{◌≡◌, ◌++◌, List, ℕ, ℤ, map, OnOk, IfOk, IfSome, IsTrue, ◌↔◌, MatchOption, string_bytes};
ghost use Rattle.spelled.specs.Monomials.{monomial_of, MonomialValue};
ghost use Rattle.form_lines.specs.Forms.{FormParts, HasNumbers, placed_sum, unless_zero, parts_monomials, forms_in_x};
ghost use Rattle.form_lines.specs.FormLaws.{taken, is_at, forms_in_x_within_line, forms_in_x_are_items};
ghost use Rattle.form_lines.specs.Views.{parts_of};

use spelled::{ItemSpelling, Monomial, Spelling, Sums, write_monomial};
use std::alloc::{AllocError, Global};

/// `n_slope * n + k_slope * k + x_slope * x + offset`
#[derive(Clone, Copy, Debug, PartialEq, Eq, Drop)]
pub struct FormInX {
    /// The factor of n.
    pub n_slope: i128,
    /// The factor of k.
    pub k_slope: i128,
    /// The factor of x.
    pub x_slope: i128,
    /// The number that is added.
    pub offset: i128,
}

// Whether a monomial has these powers.
fn has_powers(monomial: &Monomial, n_power: u32, k_power: u32, x_power: u32) -> bool
    ensures { result ≡ is_at n_power k_power x_power (monomial_of monomial.now) }
{
    monomial.n_power == n_power && monomial.k_power == k_power && monomial.x_power == x_power
}

// The coefficient of the first monomial where it has these powers, else 0, and the monomials behind it.
fn take_coefficient(
    monomials: &[Monomial],
    n_power: u32,
    k_power: u32,
    x_power: u32,
) -> (i128, &[Monomial])
    ensures { (result.0, map monomial_of result.1.now) ≡ taken n_power k_power x_power (map monomial_of monomials.now) }
{
    let Some((first, others)) = monomials.split_first() else {
        return (0, monomials);
    };
    if has_powers(first, n_power, k_power, x_power) {
        return (first.coefficient, others);
    }
    (0, monomials)
}

// The form whose monomials these are.
fn form_of_sum(monomials: &[Monomial]) -> FormInX
    ensures { (f : FormParts) → map monomial_of monomials.now ≡ parts_monomials f → parts_of result ≡ f }
{
    let (k_slope, rest) = take_coefficient(monomials, 0, 1, 0);
    let (n_slope, rest) = take_coefficient(rest, 1, 0, 0);
    let (x_slope, rest) = take_coefficient(rest, 0, 0, 1);
    let (offset, _rest) = take_coefficient(rest, 0, 0, 0);
    FormInX {
        n_slope,
        k_slope,
        x_slope,
        offset,
    }
}

// Whether a form has a text.
fn has_text(form: &FormInX) -> bool
    ensures { IsTrue result ↔ HasNumbers (parts_of form.now) }
{
    let FormInX {
        n_slope,
        k_slope,
        x_slope,
        offset,
    } = *form;
    n_slope != i128::MIN && k_slope != i128::MIN && x_slope != i128::MIN && offset != i128::MIN
}

// Writes a monomial unless its coefficient is 0. Whether nothing is written yet.
fn write_unless_zero(
    text: &mut String,
    is_first: bool,
    monomial: &Monomial,
) -> Result<bool, AllocError>
    ensures { IfOk result (λ next. (ms : List MonomialValue) → string_bytes text.new ++ placed_sum next ms
        ≡ string_bytes text.old ++ placed_sum is_first
        (unless_zero monomial.now.coefficient monomial.now.n_power monomial.now.k_power monomial.now.x_power ++ ms)) }
{
    if monomial.coefficient == 0 {
        return Ok(is_first);
    }
    write_monomial(text, is_first, monomial)?;
    Ok(false)
}

// A monomial.
fn monomial(coefficient: &i128, n_power: u32, k_power: u32, x_power: u32) -> Monomial
    ensures { monomial_of result ≡ record { coefficient = coefficient.now; n_power = n_power; k_power = k_power; x_power = x_power } }
{
    Monomial {
        coefficient: *coefficient,
        n_power,
        k_power,
        x_power,
    }
}

// Writes a form.
fn write_form(text: &mut String, form: &FormInX) -> Result<(), AllocError>
    ensures { OnOk result (string_bytes text.new ≡ string_bytes text.old ++ forms_in_x.text (parts_of form.now)) }
{
    let behind_k = write_unless_zero(text, true, &monomial(&form.k_slope, 0, 1, 0))?;
    let behind_n = write_unless_zero(text, behind_k, &monomial(&form.n_slope, 1, 0, 0))?;
    let behind_x = write_unless_zero(text, behind_n, &monomial(&form.x_slope, 0, 0, 1))?;
    let is_empty = write_unless_zero(text, behind_x, &monomial(&form.offset, 0, 0, 0))?;
    if is_empty {
        return text.push_str("0");
    }
    Ok(())
}

/// Linear forms in n, k and x, whose numbers are below 2^127 in magnitude.
#[derive(Clone, Copy)]
pub struct FormsInX;

impl Spelling for FormsInX {
    type Item = FormInX;

    ghost Value = { FormParts };

    ghost value_of = { parts_of };

    ghost format = { λ _. forms_in_x };

    fn write(&self, form: &FormInX, text: &mut String) -> Result<(), AllocError> {
        write_form(text, form)
    }

    fn read(&self, alloc: Global, text: &[u8]) -> Result<Option<FormInX>, AllocError> {
        let Some(monomials) = Sums.read(alloc, text)? else {
            return Ok(None);
        };
        let form = form_of_sum(&monomials);
        if has_text(&form) {
            return Ok(Some(form));
        }
        Ok(None)
    }

    ghost within_line = { λ _. forms_in_x_within_line };
}

impl ItemSpelling for FormsInX {
    ghost are_items = { λ _. forms_in_x_are_items };
}
