//! Whole runs: what no clause says is that memory suffices, and that the small texts give these documents.

use crate::Status;
use crate::test_runs::{WHOLE, document, outcome_of, refuses, writes};
use std::alloc::AllocError;

#[test]
fn documents_of_polynomials(rt: HostRuntime) {
    let alloc = rt.alloc();
    let rows = [
        ("k^2", "k^2", "1", "6", "2*k^3-3*k^2+k"),
        ("-3*k", "k", "-3", "2", "k^2-k"),
        ("7*k", "k", "7", "2", "k^2-k"),
        (" k ^ 2 ", "k^2", "1", "6", "2*k^3-3*k^2+k"),
        ("k+1", "k+1", "1", "2", "k^2+k"),
        ("(k)+1", "k+1", "1", "2", "k^2+k"),
        ("k+k", "2*k", "1", "1", "k^2-k"),
        ("2*(k+1)^2", "k^2+2*k+1", "2", "6", "2*k^3+3*k^2+k"),
        ("n+k-n", "k", "1", "2", "k^2-k"),
        ("5", "1", "5", "1", "k"),
        (
            "-k^4+2*k-7",
            "-k^4+2*k-7",
            "1",
            "30",
            "-6*k^5+15*k^4-10*k^3+30*k^2-239*k",
        ),
        (
            "999999*k^4+999999*k^3",
            "999999*k^4+999999*k^3",
            "1",
            "20",
            "3999996*k^5-4999995*k^4-3333330*k^3+4999995*k^2-666666*k",
        ),
    ];
    for (text, poly, scale, multiplier, y) in rows {
        let wanted = document(alloc, poly, [scale, scale], multiplier, y);
        assert!(rt; writes(&rt, text.as_bytes(), wanted, &WHOLE), "{text}");
    }
}

#[test]
fn texts_that_are_no_terms_are_refused(rt: HostRuntime) {
    let rows = [
        ("", Status::Syntax, "ekhad: syntax: empty input\n"),
        ("1k", Status::Syntax, "ekhad: syntax: unexpected at 1\n"),
        ("k!!", Status::Syntax, "ekhad: syntax: unexpected at 2\n"),
        ("2*x", Status::Syntax, "ekhad: syntax: unknown name at 2\n"),
        (
            "binomial(n,k",
            Status::Syntax,
            "ekhad: syntax: unclosed at 8\n",
        ),
        (
            "k \u{e9}",
            Status::Syntax,
            "ekhad: syntax: not ascii at 2\n",
        ),
        (
            "(((((((((((((((((((((((((((((((((((((((((((((((((((((((((((((((((",
            Status::Syntax,
            "ekhad: syntax: nesting at 64\n",
        ),
        (
            "170141183460469231731687303715884105728",
            Status::TooLarge,
            "ekhad: too large: literal at 0\n",
        ),
        (
            "170141183460469231731687303715884105727*k+k",
            Status::TooLarge,
            "ekhad: too large: term at 41\n",
        ),
    ];
    for (text, status, line) in rows {
        let refused = refuses(&rt, "gosper", text.as_bytes(), status, line, &WHOLE);
        assert!(rt; refused, "{text}");
    }
    assert!(rt; refuses(&rt, "zeil", b"k", Status::Usage, "ekhad: usage\n", &WHOLE));
}

#[test]
fn terms_that_are_not_answered(rt: HostRuntime) {
    let rows = [
        ("k!", Status::Limit, "ekhad: limit: unbuilt 1\n"),
        ("k!/k!", Status::Limit, "ekhad: limit: unbuilt 1\n"),
        ("k*k!", Status::Limit, "ekhad: limit: unbuilt 1\n"),
        ("2^k", Status::Limit, "ekhad: limit: unbuilt 1\n"),
        ("k/2", Status::Limit, "ekhad: limit: unbuilt 1\n"),
        ("k^5", Status::Limit, "ekhad: limit: unbuilt 1\n"),
        ("n", Status::Limit, "ekhad: limit: unbuilt 1\n"),
        ("1000000*k", Status::Limit, "ekhad: limit: unbuilt 1\n"),
        ("1000000+k", Status::Limit, "ekhad: limit: unbuilt 1\n"),
        ("0", Status::Improper, "ekhad: improper: reason 7 at 0\n"),
        (
            "(k+1000001)!",
            Status::Limit,
            "ekhad: limit: offset 1000001\n",
        ),
        ("(9*n)!", Status::Limit, "ekhad: limit: slope 9\n"),
        ("(9*k)!", Status::Limit, "ekhad: limit: slope 9\n"),
        ("k^13", Status::Limit, "ekhad: limit: exponent 13\n"),
        ("n^(k^13)", Status::Limit, "ekhad: limit: exponent 13\n"),
        (
            "k!^12*n!^12/(k+1)",
            Status::Limit,
            "ekhad: limit: factors 25\n",
        ),
        // the steps at the order 0: each degree before all that is multiplied, then the shifts
        ("(8*k)!^8", Status::Limit, "ekhad: limit: unbuilt 1\n"),
        (
            "170141183460469231731687303715884105727*(8*k)!^12",
            Status::Limit,
            "ekhad: limit: degree 96\n",
        ),
        ("(8*k)!^12", Status::Limit, "ekhad: limit: degree 96\n"),
        ("1/(8*k)!^12", Status::Limit, "ekhad: limit: degree 96\n"),
        ("(k+255)!/k!", Status::Limit, "ekhad: limit: unbuilt 1\n"),
        (
            "(k+256)!/k!",
            Status::Limit,
            "ekhad: limit: match shifts 257\n",
        ),
        (
            "(k+300)!/k!",
            Status::Limit,
            "ekhad: limit: match shifts 301\n",
        ),
        (
            "170141183460469231731687303715884105727^k*(2*k)!",
            Status::TooLarge,
            "ekhad: too large: order 0\n",
        ),
        (
            "170141183460469231731687303715884105727^n*(2*n)!",
            Status::Limit,
            "ekhad: limit: unbuilt 1\n",
        ),
    ];
    for (text, status, line) in rows {
        let refused = refuses(&rt, "gosper", text.as_bytes(), status, line, &WHOLE);
        assert!(rt; refused, "{text}");
    }
}

#[test]
fn terms_that_are_not_proper(rt: HostRuntime) {
    let rows = [
        ("(n*k)!", "ekhad: improper: reason 1 at 2\n"),
        ("(0*n-1)!", "ekhad: improper: reason 2 at 4\n"),
        ("1/(k^2+1)", "ekhad: improper: reason 3 at 6\n"),
        ("k/0", "ekhad: improper: reason 3 at 2\n"),
        ("n^k", "ekhad: improper: reason 4 at 1\n"),
        ("2^(n*k)", "ekhad: improper: reason 5 at 4\n"),
        ("n!+k!", "ekhad: improper: reason 6 at 2\n"),
        ("k*0", "ekhad: improper: reason 7 at 2\n"),
        // a power, a factor of one and a summand that are no polynomial and no constant
        ("((n/2)^2)^k", "ekhad: improper: reason 4 at 9\n"),
        ("(2^(k!))^k", "ekhad: improper: reason 4 at 8\n"),
        ("2^(k!)+1", "ekhad: improper: reason 6 at 6\n"),
    ];
    for (text, line) in rows {
        let refused = refuses(
            &rt,
            "gosper",
            text.as_bytes(),
            Status::Improper,
            line,
            &WHOLE,
        );
        assert!(rt; refused, "{text}");
    }
}

// Whether `check` answers the document of k^2 so, with these lines for the multiplier, the scale of the carrier and Y.
fn is_verdict(rt: &HostRuntime, lines: [&str; 3], status: Status, out: &str, err: &str) -> bool {
    let [multiplier, carrier_scale, y] = lines;
    let Ok(text) = document(rt.alloc(), "k^2", ["1", carrier_scale], multiplier, y) else {
        return false;
    };
    match outcome_of(rt.alloc(), "check", text.as_bytes(), &WHOLE) {
        Ok(outcome) => {
            outcome.status == status
                && outcome.out.bytes() == out.as_bytes()
                && outcome.err.bytes() == err.as_bytes()
        }
        Err(_) => false,
    }
}

#[test]
fn verdicts_on_documents(rt: HostRuntime) {
    let y = "2*k^3-3*k^2+k";
    let large = "170141183460469231731687303715884105727*k^2";
    let rows = [
        ("6", "1", y, Status::Found, "accepted\n", ""),
        ("5", "1", y, Status::Empty, "rejected 0 equation\n", ""),
        ("0", "1", "0", Status::Empty, "rejected 0 zero\n", ""),
        ("6", "2", y, Status::Empty, "rejected 0 carrier\n", ""),
        (
            "6",
            "1",
            large,
            Status::TooLarge,
            "",
            "ekhad: too large: claim 0\n",
        ),
        ("6", "0", y, Status::Syntax, "", "ekhad: syntax: line 9\n"),
    ];
    for (multiplier, carrier_scale, y, status, out, err) in rows {
        assert!(rt;
            is_verdict(&rt, [multiplier, carrier_scale, y], status, out, err),
            "{y}"
        );
    }
}

#[test]
fn texts_that_are_no_document(rt: HostRuntime) {
    let term = "term poly k^2; scale 1; nbase 1; kbase 1; up -; down -; over -; guard -";
    let rows = [
        ("ekhad 1\ncommand gosper\n", "\n", "ekhad: syntax: line 4\n"),
        ("ekhad 1\ncommand gosper\n", "", "ekhad: syntax: line 3\n"),
        ("", " ", "ekhad: syntax: line 1\n"),
    ];
    for (front, back, line) in rows {
        let text = format!(in rt.alloc(); "{front}{term}{back}");
        let refused = match text {
            Ok(text) => refuses(&rt, "check", text.as_bytes(), Status::Syntax, line, &WHOLE),
            Err(_) => false,
        };
        assert!(rt; refused, "{line}");
    }
}

// The document of a polynomial of degree 4, and one of more than 2,000 bytes whose Y is no sum of it.
#[test]
fn longer_documents(rt: HostRuntime) -> Result<(), AllocError> {
    let alloc = rt.alloc();
    let y = "-6*k^5+15*k^4-10*k^3+30*k^2-239*k";
    let text = document(alloc, "-k^4+2*k-7", ["1", "1"], "30", y)?;
    let checked = outcome_of(alloc, "check", text.as_bytes(), &WHOLE)?;
    assert!(rt; checked.status == Status::Found && checked.out.bytes() == b"accepted\n".as_slice());
    let mut long = String::new(alloc);
    let mut coefficient: u128 = 3;
    for passed in 0..99u32 {
        let power = 100 - passed;
        long.push_str(&format!(in alloc; "{coefficient}*k^{power}+")?)?;
        coefficient = coefficient.saturating_mul(2);
    }
    long.push_str("k")?;
    let text = document(alloc, "-k^4+2*k-7", ["1", "1"], "30", &long)?;
    let checked = outcome_of(alloc, "check", text.as_bytes(), &WHOLE)?;
    assert!(rt; text.len() > 2_000 && checked.status == Status::Empty);
    assert!(rt; checked.out.bytes() == b"rejected 0 equation\n".as_slice());
    Ok(())
}
