//! The whole roots of a polynomial.

ghost use Rattle.std.specs.Prelude.{◌≡◌, ◌≢◌, ◌≤ℤ◌, ◌<ℤ◌, IfOk, IfErr, OnOk, pos, ◌-ℤ◌, []};
ghost use Rattle.ring_laws.specs.Meaning.{listed};
ghost use Rattle.ring_laws.specs.Answer.{OnFault};
ghost use Rattle.ring_laws.specs.declared.faults.RingFault.TheVariants.{Memory};
ghost use Rattle.whole_roots.specs.Signs.{value};
ghost use Rattle.whole_roots.specs.Roots.{IsRoot, AreRoots};
ghost use Rattle.whole_roots.specs.Differences.{DifferencesInBounds};
ghost use Rattle.whole_roots.specs.Turns.{greatest, least, IsTurn, AreAll, StaysUpTo};

use crate::signs::has_sign;
use crate::turns::turns;
use poly_generic::Zn;
use ring_laws::{Ring, RingFault, Sign};
use std::alloc::Global;

// Adds the roots from `start` on up to `end`, between which the sign doesn't change, to those below `start`.
fn push_roots(found: &mut Vec<i128>, f: &Zn, start: i128, end: i128) -> Result<(), RingFault>
    requires least { start ≢ i128.MIN }
    requires order { start ≤ℤ end }
    requires stays { StaysUpTo (value (⟦<Zn as Ring>⟧.meaning f.now)) start end }
    requires found { AreAll (IsRoot (⟦<Zn as Ring>⟧.meaning f.now)) i128.MIN (start -ℤ pos 1) found.old.items }
    ensures found { OnOk result (AreAll (IsRoot (⟦<Zn as Ring>⟧.meaning f.now)) i128.MIN end found.new.items) }
    ensures memory { IfErr result (λ fault. fault ≡ Memory) }
{
    if !has_sign(f, start, Sign::Zero) {
        return Ok(());
    }
    let mut root = start;
    found.push(root)?;
    while root < end {
        root += 1;
        found.push(root)?;
    }
    Ok(())
}

// All roots, from the changes of the sign.
fn roots_from(alloc: Global, f: &Zn, turns: &[i128]) -> Result<Vec<i128>, RingFault>
    requires turns { AreAll (IsTurn (value (⟦<Zn as Ring>⟧.meaning f.now))) least greatest turns.now }
    ensures roots { IfOk result (λ roots. AreAll (IsRoot (⟦<Zn as Ring>⟧.meaning f.now)) i128.MIN greatest roots.items) }
    ensures memory { IfErr result (λ fault. fault ≡ Memory) }
{
    let mut found = Vec::new(alloc);
    let mut start = -i128::MAX;
    for index in 0..turns.len() {
        let turn = turns[index];
        push_roots(&mut found, f, start, turn - 1)?;
        start = turn;
    }
    push_roots(&mut found, f, start, i128::MAX)?;
    Ok(found)
}

/// All whole roots, rising, each once.
///
/// `TooLarge` comes only where an iterated difference of f is out of bounds: where, for some j below the degree, the difference
/// `g(n+1) - g(n)` of the j-th difference g is so. A root is never too large.
pub fn whole_roots(alloc: Global, f: &Zn) -> Result<Vec<i128>, RingFault>
    requires not_zero { ⟦<Zn as Ring>⟧.meaning f.now ≢ listed [] }
    ensures roots { IfOk result (λ roots. AreRoots (⟦<Zn as Ring>⟧.meaning f.now) roots.items) }
    ensures too_large { IfErr result (OnFault (¬ (DifferencesInBounds (⟦<Zn as Ring>⟧.meaning f.now)))) }
{
    let turns = turns(alloc, f)?;
    roots_from(alloc, f, &turns)
}
