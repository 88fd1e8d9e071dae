//! Sources and sinks that move little or fail, and words that are no command.

use crate::test_runs::{Outside, WHOLE, document, outcome_of, refuses, writes};
use crate::{Status, run};
use ek_io::{MemorySink, MemorySource};
use std::alloc::AllocError;

#[test]
fn pieces_of_any_size(rt: HostRuntime) {
    for piece in [1, 5, 4_096] {
        let outside = Outside {
            piece,
            source_fails: &[],
            out_fails: &[],
            err_fails: &[],
        };
        let wanted = document(rt.alloc(), "k^2", ["1", "1"], "6", "2*k^3-3*k^2+k");
        assert!(rt; writes(&rt, b"k^2", wanted, &outside), "{piece}");
    }
}

#[test]
fn a_source_that_fails(rt: HostRuntime) {
    for piece in [1, 5, 4_096] {
        let outside = Outside {
            piece,
            source_fails: &[0],
            out_fails: &[],
            err_fails: &[],
        };
        let line = "ekhad: read fault\n";
        assert!(rt;
            refuses(&rt, "gosper", b"k^2", Status::ReadFault, line, &outside),
            "{piece}"
        );
    }
}

#[test]
fn an_output_that_fails(rt: HostRuntime) -> Result<(), AllocError> {
    for piece in [1, 5, 4_096] {
        let outside = Outside {
            piece,
            source_fails: &[],
            out_fails: &[0],
            err_fails: &[],
        };
        let line = "ekhad: write fault\n";
        assert!(rt;
            refuses(&rt, "gosper", b"k^2", Status::WriteFault, line, &outside),
            "{piece}"
        );
    }
    let outside = Outside {
        piece: 5,
        source_fails: &[],
        out_fails: &[1],
        err_fails: &[],
    };
    let front = outcome_of(rt.alloc(), "gosper", b"k^2", &outside)?;
    assert!(rt; front.status == Status::WriteFault);
    assert!(rt; front.out.bytes() == b"ekhad".as_slice());
    Ok(())
}

#[test]
fn an_error_output_that_fails(rt: HostRuntime) -> Result<(), AllocError> {
    let outside = Outside {
        piece: 4_096,
        source_fails: &[],
        out_fails: &[],
        err_fails: &[0, 1, 2, 3, 4, 5, 6, 7],
    };
    let refused = outcome_of(rt.alloc(), "gosper", b"n^k", &outside)?;
    assert!(rt; refused.status == Status::Improper);
    assert!(rt; refused.out.bytes().is_empty() && refused.err.bytes().is_empty());
    Ok(())
}

#[test]
fn the_most_bytes_of_an_input(rt: HostRuntime) -> Result<(), AllocError> {
    let mut text = Vec::new(rt.alloc());
    for _ in 0..65_536 {
        text.push(b'k')?;
    }
    assert!(rt;
        refuses(
            &rt,
            "gosper",
            &text,
            Status::Syntax,
            "ekhad: syntax: unknown name at 0\n",
            &WHOLE
        )
    );
    text.push(b'k')?;
    let line = "ekhad: limit: input bytes 65537\n";
    assert!(rt; refuses(&rt, "gosper", &text, Status::Limit, line, &WHOLE));
    let line = "ekhad: limit: document bytes 16777217\n";
    let text = vec![in rt.alloc(); b' '; 16_777_217]?;
    assert!(rt; refuses(&rt, "check", &text, Status::Limit, line, &WHOLE));
    Ok(())
}

#[test]
fn words_that_are_no_command(rt: HostRuntime) -> Result<(), AllocError> {
    let alloc = rt.alloc();
    let mut input = MemorySource::new(Vec::from_slice(alloc, b"k")?, 9, Vec::new(alloc));
    let mut out = MemorySink::new(alloc, 9, Vec::new(alloc))?;
    let mut err = MemorySink::new(alloc, 9, Vec::new(alloc))?;
    let mut words = Vec::new(alloc);
    assert!(rt; run(alloc, &words, &mut input, &mut out, &mut err) == Status::Usage);
    words.push(String::from_str(alloc, "gosper")?)?;
    words.push(String::from_str(alloc, "gosper")?)?;
    assert!(rt; run(alloc, &words, &mut input, &mut out, &mut err) == Status::Usage);
    assert!(rt; err.bytes() == b"ekhad: usage\nekhad: usage\n".as_slice());
    assert!(rt; Status::WriteFault.code() == 9);
    Ok(())
}
