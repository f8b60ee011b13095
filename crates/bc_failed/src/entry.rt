// One failure.

ghost use Rattle.std.specs.Prelude.{◌≡◌, ◌+◌, Bool, if◌then◌else◌};
ghost use Rattle.bc_mean.specs.Serial.{same_invocation};
ghost use Rattle.bc_failed.specs.Records.{touches, leaves};
ghost use Rattle.bc_failed.specs.Ordered.{failure_of};

use bc_data::list::List;
use bc_data::run::{Failure, Fault, Invocation};
use bc_steps::Steps;
use std::marker::Model;
use std::sync::ledger::Ledger;

/// A failure with the objects that it touched.
#[derive(Drop)]
pub struct Record {
    v: Invocation,
    fault: Fault,
    touched: List<u32>,
}

impl Model for Record {
    ghost use Rattle.bc_mean.specs.Serial.{Failed};

    ghost Value = { Failed };

    ghost view = { λ r. record { v = r.v; fault = r.fault; touched = r.touched } };
}

impl Record {
    /// The failure of this invocation.
    pub fn new(v: Invocation, fault: Fault, touched: List<u32>) -> Self
        ensures { result ≡ record { v = v; fault = fault; touched = touched } }
    {
        Record { v, fault, touched }
    }

    /// Whether it touched the object.
    pub fn touches(&self, id: u32) -> bool
        ensures { result ≡ touches id self.now }
    {
        self.touched.as_slice().contains(&id)
    }

    /// The objects that it touched.
    pub(crate) fn touched(&self) -> &[u32]
        ensures { result.now ≡ self.now.touched }
    {
        self.touched.as_slice()
    }

    /// Whether it is of this invocation.
    pub fn is_of(&self, v: &Invocation) -> bool
        ensures { result ≡ same_invocation v.now self.now.v }
    {
        v.task == self.v.task
            && v.objects.as_slice() == self.v.objects.as_slice()
            && v.tags.as_slice() == self.v.tags.as_slice()
    }

    /// It without the objects.
    pub fn failure(&self) -> Failure
        ensures { result ≡ failure_of self.now }
    {
        Failure {
            v: self.v,
            fault: self.fault,
        }
    }

    /// Whether it stays where those that touched the object go, each of which is a step.
    pub fn stays<L: Ledger>(&self, id: u32, steps: &mut Steps<L>) -> bool
        ensures value { result ≡ leaves id self.now }
        ensures steps { steps.new ≡ (if touches id self.now then steps.old + 1 else steps.old) }
    {
        if self.touches(id) {
            steps.tick();
            false
        } else {
            true
        }
    }
}
