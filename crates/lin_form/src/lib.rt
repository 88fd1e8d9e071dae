//! Linear forms in n and k, and products of forms with their powers.
//!
//! Input: whole numbers within bounds. Output: a `LinForm`, and a `FactorList` of a scale and forms with powers, which is also a
//! polynomial. What a form and a list mean is in `specs/Forms.antt` and `specs/ListOf.antt`, how calls change a list is in
//! `specs/FactorLists.antt`, and which polynomial it is, and when that is in bounds, in `specs/Products.antt`.
//! Read `forms.rt`, then `products.rt` (a form as a polynomial), then `iter.rt` and `factor_lists.rt`.
#![tactic(auto)]

mod factor_lists;
mod forms;
mod iter;
mod products;
#[cfg(test)]
mod tests;

pub use factor_lists::FactorList;
pub use forms::LinForm;
pub use iter::Iter;
