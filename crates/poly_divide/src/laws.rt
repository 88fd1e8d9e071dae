//! When exact divisions are in bounds, at each level. The function here does nothing: its contract is the law.

ghost use Rattle.std.specs.Prelude.{◌↔◌, ⊤};
ghost use Rattle.ring_laws.specs.Meaning.{Meaning};
ghost use Rattle.ring_laws.specs.Wholes.{whole_algebra};
ghost use Rattle.poly_laws.specs.LongDivision.{DivisionInBounds};
ghost use Rattle.poly_laws.specs.PolyAlgebra.{poly_algebra};

use poly_generic::{Zn, Znk};
use ring_laws::{Domain, Whole};

/// A division of whole numbers is always in bounds, one of polynomials in n where each step of the long division is, and one of polynomials
/// in k where each step is, with the divisions of polynomials in n that it needs.
pub fn divisions_in_bounds()
    ensures of_numbers { (x y : Meaning) → ⟦<Whole as Domain>⟧.division_in_bounds x y ↔ ⊤ }
    ensures in_n { (f g : Meaning) → ⟦<Zn as Domain>⟧.division_in_bounds f g ↔ DivisionInBounds whole_algebra (λ (x y : Meaning). ⊤) f g }
    ensures in_k { (f g : Meaning) → ⟦<Znk as Domain>⟧.division_in_bounds f g
        ↔ DivisionInBounds (poly_algebra whole_algebra) (DivisionInBounds whole_algebra (λ (x y : Meaning). ⊤)) f g }
{}
