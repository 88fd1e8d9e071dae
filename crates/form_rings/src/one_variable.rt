//! The polynomials in n as a ring of forms.

ghost use Rattle.std.specs.Prelude.{◌≡◌, ℤ, pos};
ghost use Rattle.ring_laws.specs.Answer.{Gives};
ghost use Rattle.form_rings.specs.OneVariable.{forms_in_n, part_in_n};
ghost use Rattle.form_rings.specs.OneVariableLaws.{laws_in_n};
ghost use Rattle.form_rings.specs.Signs.{sign_of};

use crate::rings::FormRing;
use poly_generic::Zn;
use ring_laws::{Ring, RingFault, Sign, Whole};
use std::alloc::Global;

// The sign of a number.
fn sign(number: Whole) -> Sign
    ensures sign { result ≡ sign_of number.value }
{
    if number.value() < 0 {
        Sign::Negative
    } else if number.value() > 0 {
        Sign::Positive
    } else {
        Sign::Zero
    }
}

impl FormRing for Zn {
    ghost forms = { forms_in_n };

    ghost form_laws = { laws_in_n };

    fn holds_x() -> bool {
        false
    }

    fn part(alloc: Global, n_slope: i64, _x_slope: i64, offset: i64) -> Result<Zn, RingFault> {
        let mut numbers = Vec::new(alloc);
        numbers.push(Whole::from(offset))?;
        numbers.push(Whole::from(n_slope))?;
        Zn::from_coefficients(numbers)
    }

    fn from_n(alloc: Global, f: &Zn) -> Result<Zn, RingFault> {
        f.duplicate(alloc)
    }

    fn value_at(&self, alloc: Global, n: Whole, _x: Whole) -> Result<Whole, RingFault> {
        self.eval(alloc, &n)
    }

    fn as_whole(&self) -> Option<Whole> {
        let list = self.coefficients();
        if list.is_empty() {
            return Some(Whole::ZERO);
        }
        if list.len() > 1 {
            return None;
        }
        Some(list[0])
    }

    fn lead_sign(&self) -> Sign {
        match self.lead() {
            Some(lead) => sign(*lead),
            None => Sign::Zero,
        }
    }
}
