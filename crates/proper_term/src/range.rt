//! The natural range of a term.

ghost use Rattle.std.specs.Prelude.{◌≡◌, ◌≤◌, ◌^◌, pos, unsigned_abs, MatchOption, Some, None};
ghost use Rattle.lin_form.specs.Forms.{form_of};
ghost use Rattle.hypergeometric.specs.Forms.{form_with};
ghost use Rattle.lin_form.specs.ListOf.{list_of};
ghost use Rattle.hypergeometric.specs.NaturalRange.{first_with_slope, natural_range};
ghost use Rattle.proper_term.specs.TermOf.{term_of};

use crate::proper::Proper;
use lin_form::{FactorList, LinForm};

/// The least and the greatest k, as forms in n, at which the first factorials below that hold them aren't at a negative number.
///
/// The first item of down with k slope 1, `k + b*n + c`, gives the low end `-b*n - c`, and the first one with k slope -1,
/// `-k + b*n + c`, the high end `b*n + c`. `None` exactly where one of the two is missing. It takes no memory.
pub fn natural(term: &Proper) -> Option<(LinForm, LinForm)>
    ensures ends { MatchOption result (natural_range (term_of term.now).down ≡ None)
        (λ ends. natural_range (term_of term.now).down ≡ Some (form_of ends.0, form_of ends.1)) }
{
    let rising = first_with(term.down(), 1)?;
    let falling = first_with(term.down(), -1)?;
    let low = form_in_n(-rising.n_slope(), -rising.offset());
    let high = form_in_n(falling.n_slope(), falling.offset());
    Some((low, high))
}

// The form without k.
fn form_in_n(n_slope: i64, offset: i64) -> LinForm
    requires slope { unsigned_abs n_slope ≤ 64 }
    requires offset { unsigned_abs offset ≤ 2 ^ 40 }
    ensures form { form_of result ≡ form_with n_slope (pos 0) offset }
{
    LinForm::new(n_slope, 0, offset).unwrap()
}

// The first form of the list with this k slope.
fn first_with(list: &FactorList, slope: i64) -> Option<LinForm>
    ensures first { MatchOption result (first_with_slope slope (list_of list.now).factors ≡ None)
        (λ form. first_with_slope slope (list_of list.now).factors ≡ Some (form_of form)) }
{
    for (form, _) in list.iter() {
        if form.k_slope() == slope {
            return Some(form);
        }
    }
    None
}
