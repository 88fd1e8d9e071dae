//! The items of a factor list, one after another.

ghost use Rattle.std.specs.Iterator.{YieldsFirstBy, item_count};
ghost use Rattle.hypergeometric.specs.FactorLists.{factor_with};
ghost use Rattle.lin_form.specs.Forms.{form_of};

use crate::forms::LinForm;
use indexmap::map;
use std::marker::Model;

/// The forms of a factor list with their powers, in order, seen as the list of the factors that are left.
#[derive(Drop)]
pub struct Iter<'a> {
    pub(crate) entries: map::Iter<'a, LinForm, u32>,
}

impl<'a> Model for Iter<'a> {
    ghost use Rattle.std.specs.Prelude.{List};
    ghost use Rattle.hypergeometric.specs.LinearForm.{Factor};
    ghost use Rattle.lin_form.specs.FactorLists.{factors_of};

    ghost Value = { List Factor };

    ghost view = { λ items. factors_of items.entries };
}

impl<'a> Iterator for Iter<'a> {
    type Item = (LinForm, u32);

    ghost next_gives = { YieldsFirstBy (λ item. factor_with (form_of item.0) item.1) (λ rest. rest) };

    ghost remaining = { item_count (λ rest. rest) };

    fn next(&mut self) -> Option<(LinForm, u32)> {
        let (form, power) = self.entries.next()?;
        Some((*form, *power))
    }
}
