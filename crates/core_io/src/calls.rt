// The calls of a shelf or a sink in memory, some of which are to fail.
ghost use Rattle.std.specs.Prelude.{◌≡◌, OnOk, OnErr};
ghost use Rattle.core_io.specs.Calls.{no_calls, fails_next, after_call, with_failing};

use std::alloc::{AllocError, Global};
use std::marker::Model;

/// How many calls were made, and the numbers of those that fail.
#[derive(Drop)]
pub struct Calls {
    made: u64,
    failing: Vec<u64>,
}

impl Model for Calls {
    ghost use Rattle.core_io.specs.Calls.{CallsView};

    ghost Value = { CallsView };

    ghost view = { λ s. record { made = s.made; failing = s.failing.items } };
}

impl Calls {
    /// No call was made, and none fails.
    pub fn new(alloc: Global) -> Calls
        ensures { result ≡ no_calls }
    {
        Calls {
            made: 0,
            failing: Vec::new(alloc),
        }
    }

    /// The call of that number fails, counted from 1.
    pub fn fail_at(&mut self, call: u64) -> Result<(), AllocError>
        ensures ok { OnOk result (self.new ≡ with_failing self.old call) }
        ensures err { OnErr result (self.new ≡ self.old) }
    {
        self.failing.push(call)?;
        Ok(())
    }

    /// Counts a call and says whether it fails. The count stands at its last value once there.
    pub fn fails_now(&mut self) -> bool
        ensures counted { self.new ≡ after_call self.old }
        ensures fails { result ≡ fails_next self.old }
    {
        self.made = self.made.saturating_add(1);
        let made = self.made;
        self.failing.iter().any(|call| *call == made)
    }
}
