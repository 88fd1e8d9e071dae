use crate::{DocFault, print_poly_doc, read_poly_doc};
use std::alloc::{AllocError, Global};

// The document of the sum of k^2, by hand: 6k^2 = Y(k + 1) - Y(k) for Y = (k - 1)k(2k - 1).
const SQUARES: &[u8] = b"ekhad 1\n\
      command gosper\n\
      term poly k^2; scale 1; nbase 1; kbase 1; up -; down -; over -; guard -\n\
      found 0\n\
      match -\n\
      q 1; -\n\
      r 1; -\n\
      a 6\n\
      K poly 1; scale 1; nbase 1; kbase 1; up -; down -; over -; guard -\n\
      Y 2*k^3-3*k^2+k\n\
      D -\n\
      Rtop 1; -\n\
      Rbot 1; -\n\
      range -\n\
      end\n";

// The line at fault, 0 where the text is read.
fn line_at_fault(alloc: Global, text: &[u8]) -> Result<u32, AllocError> {
    match read_poly_doc(alloc, text) {
        Ok(_) => Ok(0),
        Err(DocFault::Line { at }) => Ok(at),
        Err(DocFault::Memory) => Err(AllocError),
    }
}

// The document with another line in place of one.
fn with_line(alloc: Global, number: u32, line: &[u8]) -> Result<Vec<u8>, AllocError> {
    let mut text = Vec::new(alloc);
    let mut at: u32 = 1;
    for byte in SQUARES {
        if at != number {
            text.push(*byte)?;
        }
        if *byte == b'\n' {
            if at == number {
                text.extend_from_slice(line)?;
            }
            at = at.saturating_add(1);
        }
    }
    Ok(text)
}

#[test]
fn a_document_is_read_and_printed(rt: HostRuntime) -> Result<(), DocFault> {
    let doc = read_poly_doc(rt.alloc(), SQUARES)?;
    let Ok(printed) = print_poly_doc(rt.alloc(), &doc) else {
        return Err(DocFault::Memory);
    };
    assert!(rt; printed.as_slice() == SQUARES);
    Ok(())
}

#[test]
fn a_document_cut_short_is_bad_behind_its_last_line(rt: HostRuntime) -> Result<(), AllocError> {
    let mut line: u32 = 1;
    for length in 0..SQUARES.len() {
        assert_eq!(rt; line_at_fault(rt.alloc(), &SQUARES[..length])?, line);
        if SQUARES[length] == b'\n' {
            line = line.saturating_add(1);
        }
    }
    Ok(())
}

// Each line, put in place of the line with that number, leaves the text with that line at fault, or with none where it is 0.
fn faults_are(alloc: Global, table: &[(u32, &[u8], u32)]) -> Result<bool, AllocError> {
    for (number, line, fault) in table {
        let text = with_line(alloc, *number, line)?;
        if line_at_fault(alloc, &text)? != *fault {
            return Ok(false);
        }
    }
    Ok(true)
}

#[test]
fn another_line_is_at_fault_where_it_stands(rt: HostRuntime) -> Result<(), AllocError> {
    let table: [(u32, &[u8], u32); 17] = [
        (1, b"ekhad 2\n", 1),
        (
            3,
            b"term poly k^4; scale -7; nbase 1; kbase 1; up -; down -; over -; guard -\n",
            0,
        ),
        (
            3,
            b"term poly k^5; scale 1; nbase 1; kbase 1; up -; down -; over -; guard -\n",
            3,
        ),
        (
            3,
            b"term poly 0; scale 1; nbase 1; kbase 1; up -; down -; over -; guard -\n",
            3,
        ),
        (
            3,
            b"term poly k^2; scale 0; nbase 1; kbase 1; up -; down -; over -; guard -\n",
            3,
        ),
        (4, b"found 1\n", 4),
        (8, b"a +6\n", 8),
        (8, b"a -0\n", 8),
        (8, b"a 06\n", 8),
        (8, b"a \n", 8),
        (8, b"a 0\n", 0),
        (8, b"a 170141183460469231731687303715884105727\n", 0),
        (8, b"a 170141183460469231731687303715884105728\n", 8),
        (8, b"a -170141183460469231731687303715884105728\n", 8),
        (11, b"\n", 11),
        (15, b"", 15),
        (15, b"end\n\n", 16),
    ];
    assert!(rt; faults_are(rt.alloc(), &table)?);
    Ok(())
}

#[test]
fn another_polynomial_is_read_where_it_is_spelled_as_printed(
    rt: HostRuntime,
) -> Result<(), AllocError> {
    let table: [(u32, &[u8], u32); 10] = [
        (10, b"Y 0\n", 0),
        (10, b"Y -170141183460469231731687303715884105727*k^255\n", 0),
        (10, b"Y 170141183460469231731687303715884105728*k\n", 10),
        (10, b"Y k^256\n", 10),
        (10, b"Y +k\n", 10),
        (10, b"Y 1*k\n", 10),
        (10, b"Y k^1\n", 10),
        (10, b"Y 02*k\n", 10),
        (10, b"Y  k\n", 10),
        (10, b"Y k+k^2\n", 10),
    ];
    assert!(rt; faults_are(rt.alloc(), &table)?);
    Ok(())
}
