//! The vector of the system: its sign, and its two parts.

ghost use Rattle.std.specs.Prelude.{◌≡◌, ◌≢◌, ◌<◌, ◌≤◌, map, length, take, drop, pos, IfOk, IfErr};
ghost use Rattle.ring_laws.specs.Meaning.{listed};
ghost use Rattle.ring_laws.specs.declared.faults.RingFault.TheVariants.{Memory};
ghost use Rattle.poly_laws.specs.Lists.{trimmed};
ghost use Rattle.kernel_laws.specs.Rows.{entry_at};
ghost use Rattle.key_system.specs.Solved.{IsSigned};

use crate::solving::Solved;
use form_rings::FormRing;
use poly_generic::{Poly, negatives};
use ring_laws::{Ring, RingFault, Sign};
use std::alloc::Global;

// The vector or its negative, whose entry at the column has a positive lead.
pub(crate) fn with_sign<B: FormRing>(
    alloc: Global,
    vector: Vec<B>,
    column: usize,
) -> Result<Vec<B>, RingFault>
    requires within { column < length vector.items }
    requires not_zero { entry_at B.algebra.ops (map B.meaning vector.items) column ≢ B.algebra.ops.nought }
    ensures signed { IfOk result (λ signed. IsSigned B.algebra B.forms (map B.meaning vector.items) (map B.meaning signed.items) column) }
    ensures memory { IfErr result (λ fault. fault ≡ Memory) }
{
    match vector[column].lead_sign() {
        Sign::Negative => negatives(alloc, &vector),
        Sign::Zero | Sign::Positive => Ok(vector),
    }
}

// The polynomial with the first entries, so many of them, as coefficients, and the other entries as multipliers.
pub(crate) fn parts<B: Ring>(vector: Vec<B>, count: usize) -> Result<Solved<B>, RingFault>
    requires within { count ≤ length vector.items }
    requires few { count ≤ 256 }
    ensures y { IfOk result (λ solved. ⟦<Poly<B> as Ring>⟧.meaning solved.y
        ≡ listed (trimmed B.algebra.ops (take count (map B.meaning vector.items)))) }
    ensures multipliers { IfOk result (λ solved. map B.meaning solved.multipliers.items ≡ drop count (map B.meaning vector.items)) }
    ensures memory { IfErr result (λ fault. fault ≡ Memory) }
{
    let mut vector = vector;
    let Ok(multipliers) = vector.split_off(count) else {
        return Err(RingFault::Memory);
    };
    let y = Poly::from_coefficients(vector)?;
    Ok(Solved { multipliers, y })
}
