//! The calls of a source or a sink in memory: their numbers, those that fail, and how many failed.

ghost use Rattle.std.specs.Prelude.{◌≡◌, ◌^◌, ◌≤◌, ◌↔◌, IsTrue, Contains};
ghost use Rattle.ek_io.specs.Faults.{count_up, Rose, NeverFalls};

/// Which call is next, and which calls are to fail.
#[derive(Drop)]
pub(crate) struct Calls {
    pub(crate) failing: Vec<u32>,
    pub(crate) next: u64,
    pub(crate) faults: u64,
}

impl Calls {
    /// No call was made yet.
    pub(crate) fn new(failing: Vec<u32>) -> Calls
        ensures failing { result.failing ≡ failing }
        ensures next { result.next ≡ 0 }
        ensures faults { result.faults ≡ 0 }
    {
        Calls {
            failing,
            next: 0,
            faults: 0,
        }
    }

    /// Counts the next call, and says whether it is listed. From call number 2^32 on none is.
    pub(crate) fn is_next_listed(&mut self) -> bool
        ensures listed { IsTrue result ↔ Contains self.old.failing.items self.old.next }
        ensures late { 2 ^ 32 ≤ self.old.next → ¬ IsTrue result }
        ensures next { self.new ≡ record self.old { next = count_up self.old.next } }
    {
        let call = self.next;
        self.next = call.saturating_add(1);
        self.failing.iter().any(|listed| u64::from(*listed) == call)
    }

    /// Counts a fault.
    pub(crate) fn count_fault(&mut self)
        ensures faults { self.new ≡ record self.old { faults = count_up self.old.faults } }
        ensures rose { Rose self.old.faults self.new.faults }
        ensures counted { NeverFalls self.old.faults self.new.faults }
    {
        self.faults = self.faults.saturating_add(1);
    }
}
