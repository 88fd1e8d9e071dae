//! Linear forms as texts within a line, lists of them with powers, and matches.
//!
//! Input: a form, a list of forms or matches, or a text. Output: the one text of it; what the text is that of.
//! Which forms, lists and matches have a text is in `specs/Forms.antt`, `specs/Factors.antt` and `specs/Matches.antt`; what a format and a
//! spelling are, in `exact_texts` and `spelled`.
//! Read `wide_forms.rt` (forms in n, k and x), `forms.rt` (in n and k, within bounds), then `factors.rt`, `primitive_factors.rt` and
//! `factor_lists.rt` (lists with powers), and `matches.rt`.
#![tactic(auto)]

mod factor_lists;
mod factors;
mod forms;
mod matches;
mod primitive_factors;
mod wide_forms;

pub use factor_lists::FactorLists;
pub use factors::Factors;
pub use forms::Forms;
pub use matches::Matches;
pub use primitive_factors::PrimitiveFactors;
pub use wide_forms::{FormInX, FormsInX};

#[cfg(test)]
mod tests;
