//! Counts of calls and of faults, for the fakes in memory, and which of the calls fail.

ghost use Rattle.std.specs.Prelude.{◌≡◌, ◌≤◌};
ghost use Rattle.gx_outside.specs.Calls.{no_calls, next_count, fails_next, after_call};

use std::marker::Model;

/// How many calls were made and how many faults they met, beside the numbers of the calls that
/// fail. Both counts stay at the last number of `u64`.
#[derive(Debug, Drop)]
pub(crate) struct Calls {
    failing: Vec<u64>,
    made: u64,
    faults: u64,
}

impl Model for Calls {
    ghost use Rattle.gx_outside.specs.Calls.{CallCounts};

    ghost Value = { CallCounts };

    ghost view = { λ c. record { failing = c.failing.items; calls = c.made; faults = c.faults } };
}

impl Calls {
    /// No call so far. The calls of these numbers, counted from 0, will fail.
    pub(crate) fn of(failing: Vec<u64>) -> Calls
        ensures { result ≡ no_calls failing.items }
    {
        Calls {
            failing,
            made: 0,
            faults: 0,
        }
    }

    /// The number of the next call.
    pub(crate) fn number(&self) -> u64
        ensures { result ≡ self.now.calls }
    {
        self.made
    }

    /// How many faults the calls met.
    pub(crate) fn fault_count(&self) -> u64
        ensures { result ≡ self.now.faults }
    {
        self.faults
    }

    /// Counts a call, and returns whether it fails by its number. That is a fault, and is counted
    /// too.
    pub(crate) fn count_call(&mut self) -> bool
        ensures fails_by_number { result ≡ fails_next self.old }
        ensures call_counted { self.new ≡ after_call self.old }
        ensures faults_only_rise { self.old.faults ≤ self.new.faults }
    {
        let fails = self.failing.contains(&self.made);
        self.made = self.made.saturating_add(1);
        if fails {
            self.faults = self.faults.saturating_add(1);
        }
        fails
    }

    /// Counts a fault of the last call, which did not fail by its number.
    pub(crate) fn add_fault(&mut self)
        ensures fault_counted { self.new ≡ record self.old { faults = next_count self.old.faults } }
        ensures faults_only_rise { self.old.faults ≤ self.new.faults }
    {
        self.faults = self.faults.saturating_add(1);
    }
}
