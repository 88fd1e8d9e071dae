//! The greatest common divisor of all coefficients.

ghost use Rattle.std.specs.Prelude.{map};
ghost use Rattle.poly_divide.specs.Content.{sizes_of, row_sizes, IsContent};

use poly_generic::Zn;
use ring_laws::{Ring, gcd_whole};

// The greatest common divisor of the coefficients of one polynomial.
fn content_of(f: &Zn) -> u128
    ensures { IsContent (sizes_of (⟦<Zn as Ring>⟧.meaning f.now)) result }
{
    let mut content: u128 = 0;
    let mut power: u32 = match f.degree() {
        Some(degree) => degree + 1,
        None => 0,
    };
    while power > 0 && content != 1 {
        power -= 1;
        if let Some(item) = f.coefficient(power) {
            content = gcd_whole(item.value().unsigned_abs(), content);
        }
    }
    content
}

/// The greatest common divisor of all coefficients of the row, 0 where all are zero. It takes no memory.
pub fn whole_content(row: &[Zn]) -> u128
    ensures content { IsContent (row_sizes (map ⟦<Zn as Ring>⟧.meaning row.now)) result }
{
    let mut content: u128 = 0;
    let mut at = row.len();
    while at > 0 && content != 1 {
        at -= 1;
        content = gcd_whole(content_of(&row[at]), content);
    }
    content
}
