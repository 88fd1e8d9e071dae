//! The least places of k in texts.

use crate::free_of_k;
use std::alloc::Global;
use term_text::read_term;

// The place of k in the tree of a text that has one.
fn place_in(alloc: Global, text: &[u8]) -> Option<Option<u32>> {
    if text.len() > 65_536 {
        return None;
    }
    match read_term(alloc, text) {
        Ok(tree) => Some(free_of_k(&tree)),
        Err(_) => None,
    }
}

#[test]
fn places_of_k(rt: HostRuntime) {
    let texts: [(&[u8], Option<u32>); 5] = [
        (b"n!+2", None),
        (b"n+k*k", Some(2)),
        (b"binomial(n,k)", Some(11)),
        (b"2^(n-k)", Some(5)),
        (b"k!^2", Some(0)),
    ];
    for (text, place) in texts {
        assert_eq!(rt; place_in(rt.alloc(), text), Some(place));
    }
}
