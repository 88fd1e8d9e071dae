//! The four lists of forms of a term.

ghost use Rattle.std.specs.Prelude.{◌≡◌, ◌++◌, IfOk, IfSome, OnOk, MatchOption, string_bytes};
ghost use Rattle.lin_form.specs.ListOf.{list_of};
ghost use Rattle.term_lines.specs.Fields.{FormLists, parts_of_lists};
ghost use Rattle.term_lines.specs.TermTexts.{list_fields, term_lists};
ghost use Rattle.term_lines.specs.FieldLaws.{term_lists_within_line};
ghost use Rattle.term_lines.specs.Views.{lists_said};

use crate::words::FieldWord;
use form_lines::Factors;
use lin_form::FactorList;
use spelled::{Beside, Separator, Spelling, Worded};
use std::alloc::{AllocError, Global};

/// The lists of forms of a term, each of scale 1.
#[derive(Drop)]
pub struct Lists {
    /// The forms whose factorials stand above.
    pub up: FactorList,
    /// The forms whose factorials stand below.
    pub down: FactorList,
    /// The forms that the rest is divided by.
    pub over: FactorList,
    /// The forms whose factorials were cancelled.
    pub guard: FactorList,
}

type ListField = Worded<FieldWord, Factors>;

type ListFields = Beside<ListField, Beside<ListField, Beside<ListField, ListField>>>;

const UP: ListField = Worded {
    word: FieldWord::Up,
    each: Factors,
};

const DOWN: ListField = Worded {
    word: FieldWord::Down,
    each: Factors,
};

const OVER: ListField = Worded {
    word: FieldWord::Over,
    each: Factors,
};

const GUARD: ListField = Worded {
    word: FieldWord::Guard,
    each: Factors,
};

const FIELDS: ListFields = Beside {
    first: UP,
    separator: Separator::Semicolon,
    second: Beside {
        first: DOWN,
        separator: Separator::Semicolon,
        second: Beside {
            first: OVER,
            separator: Separator::Semicolon,
            second: GUARD,
        },
    },
};

// The lists of the fields.
fn gathered(items: (FactorList, (FactorList, (FactorList, FactorList)))) -> Lists
    ensures { parts_of_lists (lists_said result) ≡ ⟦<ListFields as Spelling>⟧.value_of items }
{
    let (up, (down, (over, guard))) = items;
    Lists {
        up,
        down,
        over,
        guard,
    }
}

// Writes four lists behind their words.
pub(crate) fn write_lists(
    text: &mut String,
    up: &FactorList,
    down: &FactorList,
    over: &FactorList,
    guard: &FactorList,
) -> Result<(), AllocError>
    requires { list_fields.Has (list_of up.now, (list_of down.now, (list_of over.now, list_of guard.now))) }
    ensures { OnOk result (string_bytes text.new ≡ string_bytes text.old
        ++ list_fields.text (list_of up.now, (list_of down.now, (list_of over.now, list_of guard.now)))) }
{
    UP.write(up, text)?;
    text.push_str("; ")?;
    DOWN.write(down, text)?;
    text.push_str("; ")?;
    OVER.write(over, text)?;
    text.push_str("; ")?;
    GUARD.write(guard, text)
}

/// The lists of forms of a term: `up ITEMS; down ITEMS; over ITEMS; guard ITEMS`, each of scale 1, in any order, no form twice in one of them.
#[derive(Clone, Copy)]
pub struct TermLists;

impl Spelling for TermLists {
    type Item = Lists;

    ghost Value = { FormLists };

    ghost value_of = { lists_said };

    ghost format = { λ _. term_lists };

    fn write(&self, lists: &Lists, text: &mut String) -> Result<(), AllocError> {
        write_lists(text, &lists.up, &lists.down, &lists.over, &lists.guard)
    }

    fn read(&self, alloc: Global, text: &[u8]) -> Result<Option<Lists>, AllocError> {
        match FIELDS.read(alloc, text)? {
            Some(items) => Ok(Some(gathered(items))),
            None => Ok(None),
        }
    }

    ghost within_line = { λ _. term_lists_within_line };
}
