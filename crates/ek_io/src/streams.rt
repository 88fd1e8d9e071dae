//! What a source and a sink are: a call moves some bytes, or fails where its count of faults rises.

ghost use Rattle.std.specs.Prelude.{◌≡◌, ℕ, ◌<◌, List, length, take, IfOk, OnErr};
ghost use Rattle.std.specs.declared.option.Option.{Option};
ghost use Rattle.std.specs.Io.{ReadsAtMost, WritesAtMost};
ghost use Rattle.std.specs.Io.KnownBytes.{Consumes, Appends, IsAtEnd, Keeps};
ghost use Rattle.ek_io.specs.Faults.{Rose, NeverFalls};

/// A call on a source or a sink did not work. Its count of faults says that it was not the caller.
#[derive(Clone, Copy, Debug, PartialEq, Eq)]
pub struct Failed;

/// Bytes that come in.
pub trait Source {
    // The bytes still to come, where they are known.
    ghost left: { Self → Option (List ℕ) };

    // How many calls failed, up to 2^64 - 1.
    ghost faults: { Self → ℕ };

    /// Takes bytes from the front of what is left and puts them at the front of the buffer. It answers
    /// how many, at most the buffer's length; 0 for a buffer that is not empty is the end. What the
    /// buffer holds past them is not said. `Failed` comes only where the count of faults rose, and
    /// nothing is taken then.
    fn read(&mut self, into: &mut [u8]) -> Result<usize, Failed>
        ensures bound { ReadsAtMost result into.new }
        ensures taken { IfOk result
            (λ n. Consumes (left self.old) (left self.new) (take n into.new)) }
        ensures end { IfOk result (λ n. n ≡ 0 → 0 < length into.new → IsAtEnd (left self.new)) }

        ensures kept { OnErr result (Keeps (left self.old) (left self.new)) }
        ensures cause { OnErr result (Rose (faults self.old) (faults self.new)) }
        ensures counted { NeverFalls (faults self.old) (faults self.new) };
}

/// Bytes that go out.
pub trait Sink {
    // The bytes written so far, where they are known.
    ghost written: { Self → Option (List ℕ) };

    // How many calls failed, up to 2^64 - 1.
    ghost faults: { Self → ℕ };

    /// Takes bytes from the front of a piece and answers how many, at least one of a piece that is
    /// not empty. `Failed` comes only where the count of faults rose, and nothing is written then.
    fn write(&mut self, from: &[u8]) -> Result<usize, Failed>
        ensures bound { WritesAtMost result from.now }
        ensures taken { IfOk result
            (λ n. Appends (written self.old) (written self.new) (take n from.now)) }
        ensures progress { IfOk result (λ n. 0 < length from.now → 0 < n) }

        ensures kept { OnErr result (Keeps (written self.old) (written self.new)) }
        ensures cause { OnErr result (Rose (faults self.old) (faults self.new)) }
        ensures counted { NeverFalls (faults self.old) (faults self.new) };
}
