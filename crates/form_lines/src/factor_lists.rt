//! Lists of primitive forms with a scale.

ghost use Rattle.std.specs.Prelude.{◌≡◌, ◌≢◌, pos, MatchOption};
ghost use Rattle.hypergeometric.specs.LinearForm.{FactorList as FactorListValue};
ghost use Rattle.lin_form.specs.ListOf.{list_of};
ghost use Rattle.form_lines.specs.Factors.{factor_lists};
ghost use Rattle.form_lines.specs.FactorLaws.{lists_within_line};

use crate::factors::write_factors;
use crate::primitive_factors::PrimitiveFactors;
use lin_form::FactorList;
use number_lines::WholeNumbers;
use ring_laws::Whole;
use spelled::{Beside, Separator, Spelling};
use std::alloc::{AllocError, Global};

const PARTS: Beside<WholeNumbers, PrimitiveFactors> = Beside {
    first: WholeNumbers,
    separator: Separator::Semicolon,
    second: PrimitiveFactors,
};

// The list of scale 1 with this scale, none where that is 0.
fn with_scale(scale: Whole, list: FactorList) -> Option<FactorList>
    requires { (list_of list).scale ≡ pos 1 }
    ensures { MatchOption result (scale.value ≡ pos 0)
        (λ l. (list_of l ≡ record { scale = scale.value; factors = (list_of list).factors }) × (scale.value ≢ pos 0)) }
{
    if scale.value() == 0 {
        return None;
    }
    let mut list = list;
    match list.multiply_scale(scale) {
        Ok(()) => Some(list),
        Err(_) => None,
    }
}

/// Lists with a scale other than 0: primitive forms within bounds with their powers, in their order.
#[derive(Clone, Copy)]
pub struct FactorLists;

impl Spelling for FactorLists {
    type Item = FactorList;

    ghost Value = { FactorListValue };

    ghost value_of = { list_of };

    ghost format = { λ _. factor_lists };

    fn write(&self, list: &FactorList, text: &mut String) -> Result<(), AllocError> {
        WholeNumbers.write(&list.scale(), text)?;
        text.push_str("; ")?;
        write_factors(text, list)
    }

    fn read(&self, alloc: Global, text: &[u8]) -> Result<Option<FactorList>, AllocError> {
        let Some((scale, list)) = PARTS.read(alloc, text)? else {
            return Ok(None);
        };
        Ok(with_scale(scale, list))
    }

    ghost within_line = { λ _. lists_within_line };
}
