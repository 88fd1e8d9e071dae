use crate::{Case, Claim, CommandWord, Doc, Empty, Evidence, Form, HyperSolution, Subject};
use lin_form::FactorList;
use poly_generic::Zn;
use ring_laws::{Ring, RingFault};
use std::alloc::Global;

fn empty_order(alloc: Global) -> Result<Claim, RingFault> {
    let form = Form {
        matches: Vec::new(alloc),
        q: FactorList::new(alloc)?,
        r: FactorList::new(alloc)?,
    };
    Ok(Claim::Empty(Empty {
        order: 0,
        form,
        evidence: Evidence::Unsought,
    }))
}

fn solution(alloc: Global) -> Result<Claim, RingFault> {
    let case = Case {
        a: FactorList::new(alloc)?,
        b: FactorList::new(alloc)?,
        z: None,
    };
    Ok(Claim::Solution(HyperSolution {
        case,
        start: 0,
        c: Zn::zero(alloc)?,
    }))
}

// Whatever the command, the claims alone tell.
#[test]
fn a_claim_may_answer(rt: HostRuntime) -> Result<(), RingFault> {
    let alloc = rt.alloc();
    let mut document = Doc {
        command: CommandWord::Hyper,
        subject: Subject::Recurrence(Vec::new(alloc)),
        claims: Vec::new(alloc),
    };
    assert_eq!(rt; document.has_answer(), false);
    document.claims.push(empty_order(alloc)?)?;
    assert_eq!(rt; document.has_answer(), false);
    document.claims.push(solution(alloc)?)?;
    assert_eq!(rt; document.has_answer(), true);
    Ok(())
}
