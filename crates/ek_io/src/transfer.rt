//! A whole source into memory, and a whole text into a sink.

ghost use Rattle.std.specs.Prelude.{◌≡◌, ℕ, ◌+◌, ◌<◌, ◌≤◌, length, vec_len, IfOk, IfSome, OnOk, OnErr};
ghost use Rattle.std.specs.Io.KnownBytes.{Consumes, IsAtEnd, Appends};
ghost use Rattle.ek_io.specs.Faults.{Rose, NeverFalls};
ghost use Rattle.ek_io.specs.Transfer.{TakesBytes, TakesAtMost, AppendsFront};

use crate::{Failed, Sink, Source};
use std::alloc::Global;

/// Why a source was not read to its end.
#[derive(Clone, Copy, Debug, PartialEq, Eq)]
pub enum ReadEnd {
    /// The source failed.
    Fault,
    /// More bytes came than were allowed: so many, one more than the limit.
    Limit(u64),
    /// There was no memory for the bytes.
    Memory,
}

/// The bytes that one call is asked for.
const CHUNK: usize = 4_096;

/// The bytes of a source up to its end, at most `limit` of them.
///
/// `Limit` comes exactly where one byte more came, and the rest is left unread; `Fault` only where
/// the source's count of faults rose. After an error the bytes that came are gone from the source.
pub fn read_all<S: Source>(alloc: Global, source: &mut S, limit: usize) -> Result<Vec<u8>, ReadEnd>
    requires { limit ≤ 16777216 }
    ensures short { IfOk result (λ bytes. vec_len bytes ≤ limit) }
    ensures taken { IfOk result
        (λ bytes. Consumes (S.left source.old) (S.left source.new) bytes.items) }
    ensures end { OnOk result (IsAtEnd (S.left source.new)) }

    // Where the source tells its bytes, they are what came, and they decide between Ok and Limit.
    ensures whole { IfOk result (λ bytes. IfSome (S.left source.old) (λ held. bytes.items ≡ held)) }
    ensures within { OnOk result (IfSome (S.left source.old) (λ held. length held ≤ limit)) }
    ensures beyond { (n : ℕ) → result ≡ Err (ReadEnd.Limit n)
        → IfSome (S.left source.old) (λ held. limit < length held) }

    ensures limit { (n : ℕ) → result ≡ Err (ReadEnd.Limit n) → n ≡ limit + 1 }
    ensures limit_taken { (n : ℕ) → result ≡ Err (ReadEnd.Limit n)
        → TakesBytes (S.left source.old) (S.left source.new) n }
    ensures cause { result ≡ Err ReadEnd.Fault → Rose (S.faults source.old) (S.faults source.new) }
    ensures given_up { OnErr result
        (TakesAtMost (S.left source.old) (S.left source.new) (limit + 1)) }
    ensures counted { NeverFalls (S.faults source.old) (S.faults source.new) }
{
    let mut bytes = Vec::new(alloc);
    let mut chunk = [0u8; CHUNK];
    while bytes.len() <= limit {
        let room = (limit + 1 - bytes.len()).min(CHUNK);
        let Ok(count) = source.read(&mut chunk[..room]) else {
            return Err(ReadEnd::Fault);
        };
        if count == 0 {
            return Ok(bytes);
        }
        if bytes.extend_from_slice(&chunk[..count]).is_err() {
            return Err(ReadEnd::Memory);
        }
    }
    Err(ReadEnd::Limit(limit as u64 + 1))
}

/// Writes all the bytes, or a front of them before a call fails. It takes no memory.
pub fn write_all_counted<O: Sink>(sink: &mut O, bytes: &[u8]) -> Result<(), Failed>
    ensures all { OnOk result (Appends (O.written sink.old) (O.written sink.new) bytes.now) }
    ensures front { OnErr result
        (AppendsFront (O.written sink.old) (O.written sink.new) bytes.now) }
    ensures cause { OnErr result (Rose (O.faults sink.old) (O.faults sink.new)) }
    ensures counted { NeverFalls (O.faults sink.old) (O.faults sink.new) }
{
    let mut done = 0;
    while done < bytes.len() {
        let count = sink.write(&bytes[done..])?;
        done += count;
    }
    Ok(())
}
