//! Runs in memory, for the tests.

use crate::{Status, run};
use ek_io::{MemorySink, MemorySource};
use std::alloc::{AllocError, Global};

// A run of the program: its status, and what it wrote to both outputs.
#[derive(Drop)]
pub(crate) struct Outcome {
    pub(crate) status: Status,
    pub(crate) out: MemorySink,
    pub(crate) err: MemorySink,
}

// The bytes that move in one call, and the calls that fail.
#[derive(Clone, Copy)]
pub(crate) struct Outside<'a> {
    pub(crate) piece: usize,
    pub(crate) source_fails: &'a [u32],
    pub(crate) out_fails: &'a [u32],
    pub(crate) err_fails: &'a [u32],
}

pub(crate) const WHOLE: Outside<'static> = Outside {
    piece: 4_096,
    source_fails: &[],
    out_fails: &[],
    err_fails: &[],
};

pub(crate) fn outcome_of(
    alloc: Global,
    word: &str,
    text: &[u8],
    outside: &Outside<'_>,
) -> Result<Outcome, AllocError> {
    let mut words = Vec::new(alloc);
    words.push(String::from_str(alloc, word)?)?;
    let bytes = Vec::from_slice(alloc, text)?;
    let mut input = MemorySource::new(
        bytes,
        outside.piece,
        Vec::from_slice(alloc, outside.source_fails)?,
    );
    let mut out = MemorySink::new(
        alloc,
        outside.piece,
        Vec::from_slice(alloc, outside.out_fails)?,
    )?;
    let mut err = MemorySink::new(
        alloc,
        outside.piece,
        Vec::from_slice(alloc, outside.err_fails)?,
    )?;
    let status = run(alloc, &words, &mut input, &mut out, &mut err);
    Ok(Outcome { status, out, err })
}

// The document of a polynomial: its term's polynomial, the scales of the term and the carrier, the multiplier and Y.
pub(crate) fn document(
    alloc: Global,
    poly: &str,
    scales: [&str; 2],
    multiplier: &str,
    y: &str,
) -> Result<String, AllocError> {
    let [scale, carrier_scale] = scales;
    format!(in alloc;
        "ekhad 1\n\
         command gosper\n\
         term poly {poly}; scale {scale}; nbase 1; kbase 1; up -; down -; over -; guard -\n\
         found 0\n\
         match -\n\
         q 1; -\n\
         r 1; -\n\
         a {multiplier}\n\
         K poly 1; scale {carrier_scale}; nbase 1; kbase 1; up -; down -; over -; guard -\n\
         Y {y}\n\
         D -\n\
         Rtop 1; -\n\
         Rbot 1; -\n\
         range -\n\
         end\n"
    )
}

// Whether a run of `gosper` writes this document.
pub(crate) fn writes(
    rt: &HostRuntime,
    text: &[u8],
    document: Result<String, AllocError>,
    outside: &Outside<'_>,
) -> bool {
    let Ok(wanted) = document else {
        return false;
    };
    match outcome_of(rt.alloc(), "gosper", text, outside) {
        Ok(outcome) => {
            outcome.status == Status::Found
                && outcome.out.bytes() == wanted.as_bytes()
                && outcome.err.bytes().is_empty()
        }
        Err(_) => false,
    }
}

// Whether a run writes nothing but this line on its error output.
pub(crate) fn refuses(
    rt: &HostRuntime,
    word: &str,
    text: &[u8],
    status: Status,
    line: &str,
    outside: &Outside<'_>,
) -> bool {
    match outcome_of(rt.alloc(), word, text, outside) {
        Ok(outcome) => {
            outcome.status == status
                && outcome.out.bytes().is_empty()
                && outcome.err.bytes() == line.as_bytes()
        }
        Err(_) => false,
    }
}
