//! Which calls of a stream in memory fail.
ghost use Rattle.std.specs.Prelude.{◌≡◌, ◌≤◌};
ghost use Rattle.io_edges.specs.Plan.{is_due, after_call, after_fault};

use std::marker::Model;

/// The numbers of the calls that fail (0 is the first), with the calls and the faults so far.
#[derive(Drop)]
pub(crate) struct FaultPlan {
    fails: Vec<u64>,
    calls: u64,
    faults: u64,
}

impl FaultPlan {
    /// No call was made yet.
    pub(crate) fn new(fails: Vec<u64>) -> FaultPlan
        ensures { result ≡ record { fails = fails.items; calls = 0; faults = 0 } }
    {
        FaultPlan {
            fails,
            calls: 0,
            faults: 0,
        }
    }

    /// Returns whether the next call is one of those that fail.
    pub(crate) fn is_due(&self) -> bool
        ensures { result ≡ is_due self.now }
    {
        self.fails.contains(&self.calls)
    }

    /// Counts a call that went well.
    pub(crate) fn count_call(&mut self)
        ensures { self.new ≡ after_call self.old }
    {
        self.calls = self.calls.saturating_add(1);
    }

    /// Counts a call that failed.
    pub(crate) fn count_fault(&mut self)
        ensures after { self.new ≡ after_fault self.old }
        ensures later { self.old.faults ≤ self.new.faults }
    {
        self.calls = self.calls.saturating_add(1);
        self.faults = self.faults.saturating_add(1);
    }
}

impl Model for FaultPlan {
    ghost use Rattle.io_edges.specs.Plan.{Plan};

    ghost Value = { Plan };

    ghost view = { λ plan. record { fails = plan.fails.items; calls = plan.calls; faults = plan.faults } };
}
