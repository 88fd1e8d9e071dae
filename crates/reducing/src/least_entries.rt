//! The first entry of least degree in a row of polynomials in n.

ghost use Rattle.std.specs.Prelude.{◌≡◌, ◌<◌, ◌+◌, map, length};
ghost use Rattle.reducing.specs.PolynomialRows.{degree};
ghost use Rattle.reducing.specs.PolynomialAnswers.{LeastOf};

use poly_generic::Zn;
use ring_laws::Ring;

// The degree, and 0 for zero.
pub fn degree_of(f: &Zn) -> u32
    ensures degree { result ≡ degree (⟦<Zn as Ring>⟧.meaning f.now) }
{
    match f.degree() {
        Some(degree) => degree,
        None => 0,
    }
}

// The place of the lesser of the least entry so far and the next one.
fn lesser(row: &[Zn], least: Option<usize>, next: usize) -> Option<usize>
    requires within { next < length row.now }
    requires least { LeastOf (map ⟦<Zn as Ring>⟧.meaning row.now) next least }
    ensures least { LeastOf (map ⟦<Zn as Ring>⟧.meaning row.now) (next + 1) result }
{
    let entry = &row[next];
    if entry.is_zero() {
        return least;
    }
    match least {
        Some(place) => {
            if degree_of(entry) < degree_of(&row[place]) {
                Some(next)
            } else {
                Some(place)
            }
        }
        None => Some(next),
    }
}

// The place of the first entry of least degree among those that aren't zero.
pub fn least_place(row: &[Zn]) -> Option<usize>
    ensures least { LeastOf (map ⟦<Zn as Ring>⟧.meaning row.now) (length row.now) result }
{
    let mut least: Option<usize> = None;
    for next in 0..row.len() {
        least = lesser(row, least, next);
    }
    least
}
