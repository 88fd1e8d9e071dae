use crate::{Reason, Verdict, check_poly};
use cert_text::{DocFault, PolyDoc, read_poly_doc};
use documents::{EngineFault, Place};
use std::alloc::Global;

// The document with these lines for the multiplier, the scale of the carrier and Y, of the sum of k^2.
fn squares(alloc: Global, multiplier: &str, scale: &str, y: &str) -> Result<PolyDoc, DocFault> {
    let text = format!(in alloc;
        "ekhad 1\n\
         command gosper\n\
         term poly k^2; scale 1; nbase 1; kbase 1; up -; down -; over -; guard -\n\
         found 0\n\
         match -\n\
         q 1; -\n\
         r 1; -\n\
         a {multiplier}\n\
         K poly 1; scale {scale}; nbase 1; kbase 1; up -; down -; over -; guard -\n\
         Y {y}\n\
         D -\n\
         Rtop 1; -\n\
         Rbot 1; -\n\
         range -\n\
         end\n"
    );
    match text {
        Ok(text) => read_poly_doc(alloc, text.as_bytes()),
        Err(_) => Err(DocFault::Memory),
    }
}

#[test]
fn claims_are_accepted_or_fail_a_test(rt: HostRuntime) -> Result<(), DocFault> {
    let table: [(&str, &str, &str, Option<Reason>); 7] = [
        ("6", "1", "2*k^3-3*k^2+k", None),
        ("-6", "1", "-2*k^3+3*k^2-k+9", None),
        ("5", "1", "2*k^3-3*k^2+k", Some(Reason::Equation)),
        ("6", "1", "2*k^3-3*k^2", Some(Reason::Equation)),
        ("0", "1", "0", Some(Reason::Zero)),
        ("6", "2", "2*k^3-3*k^2+k", Some(Reason::Carrier)),
        ("0", "2", "0", Some(Reason::Carrier)),
    ];
    for (multiplier, scale, y, reason) in table {
        let doc = squares(rt.alloc(), multiplier, scale, y)?;
        let Ok(verdict) = check_poly(rt.alloc(), &doc) else {
            return Err(DocFault::Memory);
        };
        let wanted = match reason {
            Some(reason) => Verdict::Rejected { claim: 0, reason },
            None => Verdict::Accepted {
                unchecked: Vec::new(rt.alloc()),
            },
        };
        assert!(rt; verdict == wanted);
    }
    Ok(())
}

#[test]
fn a_shift_past_the_bounds_is_too_large(rt: HostRuntime) -> Result<(), DocFault> {
    let doc = squares(
        rt.alloc(),
        "6",
        "1",
        "170141183460469231731687303715884105727*k^2",
    )?;
    assert!(rt;
        check_poly(rt.alloc(), &doc)
            == Err(EngineFault::TooLarge {
                place: Place::Claim(0)
            })
    );
    Ok(())
}
