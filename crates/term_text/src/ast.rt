//! The tree of a term.

use ring_laws::Whole;
use sqlite_items::{Boxed, Items};

/// A tree, and its place: a byte of the text, counted from 0.
///
/// A literal and a variable stand at their first byte, a sum at its first sign, the leading minus included, a product at its
/// first `*` or `/`, a power at its `^`, a factorial at its `!`, and a binomial at the first byte of its name. Parentheses
/// leave no node.
#[cycle(ast)]
#[derive(Drop)]
pub struct Ast {
    pub at: u32,
    pub node: Node,
}

/// What stands at a place.
#[cycle(ast)]
#[derive(Drop)]
pub enum Node {
    /// A whole number: of at least 0 where it was read from a text.
    Literal(Whole),
    /// The variable `n`.
    N,
    /// The variable `k`.
    K,
    /// The parts of a sum in their order: two or more, or one behind a leading minus.
    Sum(Items<Part>),
    /// The parts of a product in their order, two or more.
    Product(Items<Part>),
    /// A base and its exponent.
    Pow(Boxed<Ast>, Boxed<Ast>),
    /// The factorial of an argument.
    Factorial(Boxed<Ast>),
    /// The binomial coefficient of an upper and a lower argument.
    Binomial(Boxed<Ast>, Boxed<Ast>),
}

/// A part, and whether it is turned: subtracted in a sum, divided by in a product.
#[cycle(ast)]
#[derive(Drop)]
pub struct Part {
    pub turned: bool,
    pub ast: Ast,
}
