//! The claims of a document.

use gosper_form::Match;
use lin_form::{FactorList, LinForm};
use poly_fraction::Frac;
use poly_generic::{Zn, Znk};
use proper_term::Proper;
use ring_laws::Whole;

/// Gosper's normal form of a term at an order, as it is written: what matches, and what is left of both lists.
#[derive(Drop)]
pub struct Form {
    /// What was taken from both lists.
    pub matches: Vec<Match>,
    /// What is left above.
    pub q: FactorList,
    /// What is left below.
    pub r: FactorList,
}

/// A recurrence with its certificate: a_0(n) F(n,k) + .. + a_J(n) F(n+J,k) = G(n,k+1) - G(n,k), with G = K Y / D.
#[derive(Drop)]
pub struct Found {
    /// The order J, which is 1 for a pair.
    pub order: u32,
    /// Gosper's normal form of the term at the order.
    pub form: Form,
    /// a_0, .., a_J, polynomials in n; for a pair the one multiplier a.
    pub multipliers: Vec<Zn>,
    /// K
    pub carrier: Proper,
    /// Y
    pub y: Znk,
    /// D, whose scale is 1.
    pub poles: FactorList,
    /// The list above of the ratio G / F.
    pub ratio_top: FactorList,
    /// The list below of the ratio G / F.
    pub ratio_bottom: FactorList,
    /// The least and the greatest k at which the term isn't 0, as forms in n, where the term has such ends.
    pub range: Option<(LinForm, LinForm)>,
}

/// What shows that an order is empty.
#[derive(Clone, Copy, Debug, PartialEq, Eq, Drop)]
pub enum Evidence {
    /// Nothing was sought.
    Unsought,
    /// No number shows it.
    None,
    /// The key equation has no solution at this n.
    At(u32),
}

/// An order without a recurrence.
#[derive(Drop)]
pub struct Empty {
    /// The order, which is 1 where there is no pair.
    pub order: u32,
    /// Gosper's normal form of the term at the order.
    pub form: Form,
    /// What shows that there is none.
    pub evidence: Evidence,
}

/// The companion identity of a pair over a box.
#[derive(Drop)]
pub enum Sums {
    /// The two sums.
    Sides {
        /// The sum over n.
        left: Frac<Whole>,
        /// The sum over k.
        right: Frac<Whole>,
    },
    /// The first point of the box at which something is undefined.
    Undefined {
        /// n at this point.
        n: i64,
        /// k at this point.
        k: i64,
    },
}

/// A case of Hyper: two products of linear factors in n, of scale 1, and a root.
#[derive(Drop)]
pub struct Case {
    /// The factors above.
    pub a: FactorList,
    /// The factors below.
    pub b: FactorList,
    /// The root z, none where there is no root.
    pub z: Option<Frac<Whole>>,
}

/// A hypergeometric solution of a recurrence: c(n) z^(n-start) and the product of a(m)/b(m), m from start to n-1.
#[derive(Drop)]
pub struct HyperSolution {
    /// The case.
    pub case: Case,
    /// The first n.
    pub start: u64,
    /// The polynomial c, in n.
    pub c: Zn,
}

/// A solution with the same quotient as an earlier one.
#[derive(Drop)]
pub struct HyperAgain {
    /// The case.
    pub case: Case,
    /// The number of the earlier claim, counted from 0.
    pub earlier: u32,
    /// The polynomial c, in n.
    pub c: Zn,
}

/// A claim of a document.
#[derive(Drop)]
pub enum Claim {
    /// An order with a recurrence.
    Found(Found),
    /// An order without one.
    Empty(Empty),
    /// A WZ pair.
    Pair(Found),
    /// There is no WZ pair.
    NoPair(Empty),
    /// The companion identity of the pair before.
    Sums(Sums),
    /// A case of Hyper without a root.
    NoRoot(Case),
    /// A case of Hyper without a polynomial.
    Barren(Case),
    /// A solution of a recurrence.
    Solution(HyperSolution),
    /// A solution that is there already.
    Again(HyperAgain),
}
