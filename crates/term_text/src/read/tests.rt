//! Worked rows of the readers.

use super::*;
use crate::ast::Node;

// The fault of a text, or nothing where it has a tree.
fn fault_of(rt: &HostRuntime, text: &[u8]) -> Option<TextFault> {
    if text.len() > 65536 {
        return None;
    }
    match read_term(rt.alloc(), text) {
        Ok(_) => None,
        Err(fault) => Some(fault),
    }
}

// Where the tree of a text stands.
fn place_of(rt: &HostRuntime, text: &[u8]) -> Option<u32> {
    if text.len() > 65536 {
        return None;
    }
    match read_term(rt.alloc(), text) {
        Ok(ast) => Some(ast.at),
        Err(_) => None,
    }
}

#[test]
fn single_bytes(rt: HostRuntime) {
    for byte in 0..=255_u8 {
        let fault = match byte {
            b' ' | b'\t' | b'\r' | b'\n' => Some(TextFault::EmptyInput),
            b'n' | b'k' | b'0'..=b'9' => None,
            b'a'..=b'z' | b'A'..=b'Z' => Some(TextFault::UnknownName { at: 0 }),
            b'(' => Some(TextFault::UnclosedParen { at: 0 }),
            b'-' => Some(TextFault::Unexpected { at: 1 }),
            128..=255 => Some(TextFault::NotAscii { at: 0 }),
            _ => Some(TextFault::Unexpected { at: 0 }),
        };
        assert!(rt; fault_of(&rt, [byte].as_slice()) == fault);
    }
}

#[test]
fn faults(rt: HostRuntime) {
    let table: [(&[u8], TextFault); 20] = [
        (b"", TextFault::EmptyInput),
        (b"k!!", TextFault::Unexpected { at: 2 }),
        (b"k!x", TextFault::UnknownName { at: 2 }),
        (b"k(", TextFault::Unexpected { at: 1 }),
        (b"k^2^3", TextFault::Unexpected { at: 3 }),
        (b"2*-k", TextFault::Unexpected { at: 2 }),
        (b"- -k", TextFault::Unexpected { at: 2 }),
        (b"k+", TextFault::Unexpected { at: 2 }),
        (b"(k)(", TextFault::Unexpected { at: 3 }),
        (b"(k+(n)", TextFault::UnclosedParen { at: 0 }),
        (b"((k+(n)", TextFault::UnclosedParen { at: 1 }),
        (b"k;n", TextFault::Unexpected { at: 1 }),
        (b"binomial(n,k", TextFault::UnclosedParen { at: 8 }),
        (b"binomial n", TextFault::Unexpected { at: 9 }),
        (b"binomial(n)", TextFault::Unexpected { at: 10 }),
        (b"binomialx", TextFault::UnknownName { at: 0 }),
        (b"n1", TextFault::UnknownName { at: 0 }),
        (
            b"k+170141183460469231731687303715884105728",
            TextFault::LiteralTooLarge { at: 2 },
        ),
        (
            b"((((((((((((((((((((((((((((((((((((((((((((((((((((((((((((((((k(",
            TextFault::Nesting { at: 65 },
        ),
        (
            b"((((((((((((((((((((((((((((((((((((((((((((((((((((((((((((((((binomial(",
            TextFault::Nesting { at: 72 },
        ),
    ];
    for (text, fault) in table {
        assert!(rt; fault_of(&rt, text) == Some(fault));
    }
    assert!(rt; fault_of(&rt, [b'('; 64].as_slice()) == Some(TextFault::UnclosedParen { at: 63 }));
    assert!(rt; fault_of(&rt, [b'('; 65].as_slice()) == Some(TextFault::Nesting { at: 64 }));
}

#[test]
fn places(rt: HostRuntime) {
    let table: [(&[u8], u32); 10] = [
        (b"k^2", 1),
        (b"-n+k", 0),
        (b"n+k-n", 1),
        (b"n*k/2", 1),
        (b"(-k)", 1),
        (b"((k))", 2),
        (b" k!^2", 3),
        (b"k*n!", 1),
        (b"binomial ( n , k )", 0),
        (b"000170141183460469231731687303715884105727", 0),
    ];
    for (text, at) in table {
        assert!(rt; place_of(&rt, text) == Some(at));
    }
}

#[test]
fn literals(rt: HostRuntime) {
    match read_term(
        rt.alloc(),
        b"170141183460469231731687303715884105727".as_slice(),
    ) {
        Ok(
            Ast {
                at: _,
                node: Node::Literal(whole),
            },
        ) => assert!(rt; whole.value() == i128::MAX),
        _ => assert!(rt; false),
    }
}

// The longest text: a space and 32,768 times k.
#[test]
fn longest_sum(rt: HostRuntime) -> Result<(), AllocError> {
    let mut text = Vec::new(rt.alloc());
    text.extend_from_slice(b" k".as_slice())?;
    for _ in 0..32767 {
        text.extend_from_slice(b"+k".as_slice())?;
    }
    assert!(rt; place_of(&rt, text.as_slice()) == Some(2));
    Ok(())
}

// Whether a tree is this variable at this place.
fn is_variable(ast: &Ast, name: u8, at: u32) -> bool {
    match &ast.node {
        Node::N => name == b'n' && ast.at == at,
        Node::K => name == b'k' && ast.at == at,
        _ => false,
    }
}

#[test]
fn pairs(rt: HostRuntime) {
    match read_pair(rt.alloc(), b"k;n".as_slice()) {
        Ok((first, last)) => {
            assert!(rt; is_variable(&first, b'k', 0));
            assert!(rt; is_variable(&last, b'n', 2));
        }
        Err(_) => assert!(rt; false),
    }
    let one = read_pair(rt.alloc(), b"k".as_slice());
    assert!(rt; matches!(one, Err(TextFault::Unexpected { at: 1 })));
    let three = read_pair(rt.alloc(), b"k;n;k".as_slice());
    assert!(rt; matches!(three, Err(TextFault::Unexpected { at: 3 })));
    let open = read_pair(rt.alloc(), b"k;(n".as_slice());
    assert!(rt; matches!(open, Err(TextFault::UnclosedParen { at: 2 })));
    let inner = read_pair(rt.alloc(), b"(k;n)".as_slice());
    assert!(rt; matches!(inner, Err(TextFault::Unexpected { at: 2 })));
}

// The range of the bounds of a box, whose terms are k and n at 0 and 2, or its fault.
fn range_of(rt: &HostRuntime, text: &[u8]) -> Result<BoxRange, TextFault> {
    if text.len() > 65536 {
        return Err(TextFault::EmptyInput);
    }
    match read_boxed(rt.alloc(), text) {
        Ok((first, last, range)) => {
            if is_variable(&first, b'k', 0) && is_variable(&last, b'n', 2) {
                Ok(range)
            } else {
                Err(TextFault::EmptyInput)
            }
        }
        Err(fault) => Err(fault),
    }
}

fn range(n0: i128, n1: i128, k0: i128, k1: i128) -> BoxRange {
    BoxRange { n0, n1, k0, k1 }
}

#[test]
fn boxes(rt: HostRuntime) {
    let table: [(&[u8], BoxRange); 4] = [
        (b"k;n;0,1,-2,3", range(0, 1, -2, 3)),
        (b"k;n;0,1,- 2,3", range(0, 1, -2, 3)),
        (b"k;n ; - 0 , 007, - 00 , 3 ", range(0, 7, 0, 3)),
        (
            b"k;n;-170141183460469231731687303715884105727,0,0,000170141183460469231731687303715884105727",
            range(-i128::MAX, 0, 0, i128::MAX),
        ),
    ];
    for (text, wanted) in table {
        assert!(rt; range_of(&rt, text) == Ok(wanted));
    }
}

#[test]
fn faults_of_boxes(rt: HostRuntime) {
    let table: [(&[u8], TextFault); 15] = [
        (b"k;n", TextFault::Unexpected { at: 3 }),
        (b"k;n;", TextFault::Unexpected { at: 4 }),
        (b"k;n;--2,0,0,0", TextFault::Unexpected { at: 5 }),
        (b"k;n;0,1,2", TextFault::Unexpected { at: 9 }),
        (b"k;n;0,1,2,", TextFault::Unexpected { at: 10 }),
        (b"k;n;0,1,,3", TextFault::Unexpected { at: 8 }),
        (b"k;n;0,1,2,3,4", TextFault::Unexpected { at: 11 }),
        (b"k;n;0,1,2,-", TextFault::Unexpected { at: 11 }),
        (b"k;n;(0),1,2,3", TextFault::Unexpected { at: 4 }),
        (b"k;n;0;1,2,3", TextFault::Unexpected { at: 5 }),
        (b"k;n;k,1,2,3", TextFault::Unexpected { at: 4 }),
        (b"k;n;1+1,1,2,3", TextFault::Unexpected { at: 5 }),
        (b"k;(n;0,1,2,3", TextFault::Unexpected { at: 4 }),
        (
            b"k;n;0,- 170141183460469231731687303715884105728,2,3",
            TextFault::LiteralTooLarge { at: 8 },
        ),
        (
            b"k;n;0,1,2,000170141183460469231731687303715884105728",
            TextFault::LiteralTooLarge { at: 10 },
        ),
    ];
    for (text, fault) in table {
        assert!(rt; range_of(&rt, text) == Err(fault));
    }
}

#[test]
fn recurrences(rt: HostRuntime) {
    match read_recurrence(rt.alloc(), b"n;1;n^2".as_slice()) {
        Ok(terms) => assert!(rt; terms.len() == 3),
        Err(_) => assert!(rt; false),
    }
    let one = read_recurrence(rt.alloc(), b"k".as_slice());
    assert!(rt; matches!(one, Err(TextFault::Unexpected { at: 1 })));
    let ended = read_recurrence(rt.alloc(), b"k;n;".as_slice());
    assert!(rt; matches!(ended, Err(TextFault::Unexpected { at: 4 })));
}
