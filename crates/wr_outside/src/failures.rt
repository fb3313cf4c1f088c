// Which calls of a fake fail.
ghost use Rattle.std.specs.Prelude.{◌≡◌, ◌+◌, ◌^◌, ◌-◌, ◌↔◌, ◌≤◌, IsTrue, min};
ghost use Rattle.std.specs.Bool.{OnFalse, OnTrue};
ghost use Rattle.wr_outside.specs.Cause.{Rose};

/// Counts calls from 1. Those whose numbers are listed fail, each once.
#[derive(Debug, Drop)]
pub struct Failures {
    pub calls: u64,
    pub listed: Vec<u64>,
    pub faults: u64,
}

impl Failures {
    ghost use Rattle.wr_outside.specs.Listed.{IsListed};

    /// No call yet, and these numbers fail.
    pub fn new(listed: Vec<u64>) -> Failures
        ensures listed { result.listed.items ≡ listed.items }
        ensures calls { result.calls ≡ 0 }
        ensures faults { result.faults ≡ 0 }
    {
        Failures {
            calls: 0,
            listed,
            faults: 0,
        }
    }

    // Counts a call, and answers whether it fails. After the last number of a u64 calls have none.
    pub(crate) fn next_fails(&mut self) -> bool
        ensures fails { IsTrue result ↔ IsListed self.old }
        ensures calls { self.new.calls ≡ min (self.old.calls + 1) (2 ^ 64 - 1) }
        ensures listed { self.new.listed ≡ self.old.listed }
        ensures later { self.old.faults ≤ self.new.faults }
        ensures rose { OnTrue result (Rose self.old.faults self.new.faults) }
        ensures rises { OnTrue result (self.new.faults ≡ min (self.old.faults + 1) (2 ^ 64 - 1)) }
        ensures stays { OnFalse result (self.new.faults ≡ self.old.faults) }
    {
        let Some(number) = self.calls.checked_add(1) else {
            return false;
        };
        self.calls = number;
        let fails = self.listed.contains(&number);
        if fails {
            self.faults = self.faults.saturating_add(1);
        }
        fails
    }
}
