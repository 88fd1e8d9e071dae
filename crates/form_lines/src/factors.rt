//! Lists of forms with their powers.

ghost use Rattle.std.specs.Prelude.{◌≡◌, ◌++◌, pos, IfOk, OnOk, MatchOption, string_bytes};
ghost use Rattle.hypergeometric.specs.LinearForm.{FactorList as FactorListValue};
ghost use Rattle.hypergeometric.specs.FormOrder.{AreFactors};
ghost use Rattle.lin_form.specs.FactorLists.{factors_of};
ghost use Rattle.lin_form.specs.ListOf.{list_of};
ghost use Rattle.form_lines.specs.Factors.{factors};
ghost use Rattle.form_lines.specs.FactorLaws.{factors_within_line};

use crate::forms::Forms;
use lin_form::{FactorList, LinForm};
use spelled::{Items, Powered, Spelling};
use std::alloc::{AllocError, Global};

const FACTORS: Items<Powered<Forms>> = Items {
    each: Powered { each: Forms },
};

// The list of these forms with their powers, none where a power is 0 or a form stands twice.
fn collect_factors(
    alloc: Global,
    items: &[(LinForm, u32)],
) -> Result<Option<FactorList>, AllocError>
    ensures { IfOk result (λ found. MatchOption found (¬ AreFactors (factors_of items.now))
        (λ list. list_of list ≡ record { scale = pos 1; factors = factors_of items.now })) }
{
    let Ok(mut list) = FactorList::new(alloc) else {
        return Err(AllocError);
    };
    for item in items {
        let (form, power) = *item;
        if power == 0 {
            return Ok(None);
        }
        if list.power(&form) != 0 {
            return Ok(None);
        }
        let Ok(()) = list.multiply(form, power) else {
            return Err(AllocError);
        };
    }
    Ok(Some(list))
}

// Writes the factors of a list, without its scale.
pub(crate) fn write_factors(text: &mut String, list: &FactorList) -> Result<(), AllocError>
    ensures { OnOk result (string_bytes text.new ≡ string_bytes text.old ++ factors.text (list_of list.now)) }
{
    let mut items = Vec::new(*text.allocator());
    for item in list.iter() {
        items.push(item)?;
    }
    FACTORS.write(&items, text)
}

/// Lists of scale 1: forms within bounds with their powers, in any order, none of them twice.
#[derive(Clone, Copy)]
pub struct Factors;

impl Spelling for Factors {
    type Item = FactorList;

    ghost Value = { FactorListValue };

    ghost value_of = { list_of };

    ghost format = { λ _. factors };

    fn write(&self, list: &FactorList, text: &mut String) -> Result<(), AllocError> {
        write_factors(text, list)
    }

    fn read(&self, alloc: Global, text: &[u8]) -> Result<Option<FactorList>, AllocError> {
        let Some(items) = FACTORS.read(alloc, text)? else {
            return Ok(None);
        };
        collect_factors(alloc, &items)
    }

    ghost within_line = { λ _. factors_within_line };
}
