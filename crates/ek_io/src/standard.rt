//! Readers and writers of std as a source and a sink: the trusted edge, which tells no bytes.
//! Of a reader or writer whose bytes std knows, as one in memory, clauses say that they are passed on.

ghost use Rattle.std.specs.Prelude.{◌≡◌, ◌<◌, length, None, IfOk, OnOk, OnErr};
ghost use Rattle.std.specs.Io.{ReadsAtMost, WritesAtMost};
ghost use Rattle.std.specs.Io.KnownBytes.{ReadConsumes, WriteAppends};
ghost use Rattle.ek_io.specs.Faults.{count_up, Rose, NeverFalls};

use crate::{Failed, Sink, Source};
use std::io::{Read, Write};
use std::marker::Model;

/// A reader of std as a source. Contracts see it as a `StdState` of `specs/Standard.antt`.
#[derive(Drop)]
pub struct StdSource<R: Read> {
    inner: R,
    faults: u64,
}

impl<R: Read> Model for StdSource<R> {
    ghost use Rattle.ek_io.specs.Standard.{StdState};

    ghost Value = { StdState R };

    ghost view = { λ s. record { inner = s.inner; faults = s.faults } };
}

impl<R: Read> StdSource<R> {
    /// A source that reads from `inner` and has failed at no call yet.
    pub fn new(inner: R) -> StdSource<R>
        ensures { result ≡ record { inner = inner; faults = 0 } }
    {
        StdSource { inner, faults: 0 }
    }
}

impl<R: Read> Source for StdSource<R> {
    ghost left = { λ _. None };

    ghost faults = { λ s. s.faults };

    fn read(&mut self, into: &mut [u8]) -> Result<usize, Failed>
        // What the reader gave, and how its failures are counted.
        ensures passed_on { ReadConsumes (R.remaining self.old.inner) (R.remaining self.new.inner)
            result into.new }
        ensures worked { OnOk result (self.new.faults ≡ self.old.faults) }
        ensures failed { OnErr result (self.new.faults ≡ count_up self.old.faults) }

        // What every source promises, where no bytes are told.
        ensures bound { ReadsAtMost result into.new }
        ensures cause { OnErr result (Rose self.old.faults self.new.faults) }
        ensures counted { NeverFalls self.old.faults self.new.faults }
    {
        match self.inner.read(into) {
            Ok(count) => Ok(count),
            Err(_) => {
                self.faults = self.faults.saturating_add(1);
                Err(Failed)
            }
        }
    }
}

/// A writer of std as a sink. Contracts see it as a `StdState` of `specs/Standard.antt`.
#[derive(Drop)]
pub struct StdSink<W: Write> {
    inner: W,
    faults: u64,
}

impl<W: Write> Model for StdSink<W> {
    ghost use Rattle.ek_io.specs.Standard.{StdState};

    ghost Value = { StdState W };

    ghost view = { λ s. record { inner = s.inner; faults = s.faults } };
}

impl<W: Write> StdSink<W> {
    /// A sink that writes to `inner` and has failed at no call yet.
    pub fn new(inner: W) -> StdSink<W>
        ensures { result ≡ record { inner = inner; faults = 0 } }
    {
        StdSink { inner, faults: 0 }
    }
}

impl<W: Write> Sink for StdSink<W> {
    ghost written = { λ _. None };

    ghost faults = { λ s. s.faults };

    /// A write that takes nothing of a piece that is not empty is a failure.
    fn write(&mut self, from: &[u8]) -> Result<usize, Failed>
        // What the writer took, and how its failures are counted.
        ensures passed_on { WriteAppends (W.contents self.old.inner) (W.contents self.new.inner)
            result from.now }
        ensures worked { OnOk result (self.new.faults ≡ self.old.faults) }
        ensures failed { OnErr result (self.new.faults ≡ count_up self.old.faults) }

        // What every sink promises, where no bytes are told.
        ensures bound { WritesAtMost result from.now }
        ensures progress { IfOk result (λ n. 0 < length from.now → 0 < n) }
        ensures cause { OnErr result (Rose self.old.faults self.new.faults) }
        ensures counted { NeverFalls self.old.faults self.new.faults }
    {
        match self.inner.write(from) {
            Ok(count) if count > 0 || from.is_empty() => Ok(count),
            _ => {
                self.faults = self.faults.saturating_add(1);
                Err(Failed)
            }
        }
    }
}
