//! The ends of a range.

ghost use Rattle.hypergeometric.specs.LinearForm.{LinearForm};
ghost use Rattle.documents.specs.Views.{ends_said};
ghost use Rattle.document_lines.specs.ClaimTexts.{ends_of_range};
ghost use Rattle.document_lines.specs.RangeLaws.{ends_within_line, ends_are_items};

use form_lines::Forms;
use lin_form::LinForm;
use spelled::{Beside, ItemSpelling, Separator, Spelling};
use std::alloc::{AllocError, Global};

const ENDS: Beside<Forms, Forms> = Beside {
    first: Forms,
    separator: Separator::To,
    second: Forms,
};

/// The two ends of a range, ` to ` between them: forms within bounds.
#[derive(Clone, Copy)]
pub struct Ranges;

impl Spelling for Ranges {
    type Item = (LinForm, LinForm);

    ghost Value = { LinearForm × LinearForm };

    ghost value_of = { ends_said };

    ghost format = { λ _. ends_of_range };

    fn write(&self, ends: &(LinForm, LinForm), text: &mut String) -> Result<(), AllocError> {
        ENDS.write(ends, text)
    }

    fn read(&self, alloc: Global, text: &[u8]) -> Result<Option<(LinForm, LinForm)>, AllocError> {
        ENDS.read(alloc, text)
    }

    ghost within_line = { λ _. ends_within_line };
}

impl ItemSpelling for Ranges {
    ghost are_items = { λ _. ends_are_items };
}
