//! What a run of events was answered.
ghost use Rattle.std.specs.Prelude.{◌≡◌};

use crate::Outcome;
use std::marker::Model;

/// The outcome of one event, and the octets that it took, if it was a taking that was accepted.
#[derive(Drop)]
pub struct Step {
    outcome: Outcome,
    octets: Vec<u8>,
}

impl Model for Step {
    ghost use Rattle.office.specs.Runs.{Step as Shown};

    ghost Value = { Shown };

    ghost view = { λ s. record { outcome = s.outcome; octets = s.octets.items } };
}

impl Step {
    pub(crate) fn new(outcome: Outcome, octets: Vec<u8>) -> Step
        ensures { result ≡ record { outcome = outcome; octets = octets.items } }
    {
        Step { outcome, octets }
    }

    /// What the event was answered.
    pub fn outcome(&self) -> &Outcome
        ensures { result.now ≡ self.now.outcome }
    {
        &self.outcome
    }

    /// The octets that it took; none for any other event.
    pub fn octets(&self) -> &[u8]
        ensures { result.now ≡ self.now.octets }
    {
        &self.octets
    }
}

/// What each event of a run was answered, in order.
#[derive(Drop)]
pub struct Transcript {
    steps: Vec<Step>,
}

impl Model for Transcript {
    ghost use Rattle.std.specs.Prelude.{List};
    ghost use Rattle.office.specs.Runs.{Step as Shown};

    ghost Value = { List Shown };

    ghost view = { λ t. t.steps.items };
}

impl Transcript {
    pub(crate) fn new(steps: Vec<Step>) -> Transcript
        ensures { result ≡ steps.items }
    {
        Transcript { steps }
    }

    /// A step for each event, in order.
    pub fn steps(&self) -> &[Step]
        ensures { result.now ≡ self.now }
    {
        &self.steps
    }
}

/// Why a run stopped early: want of memory for the transcript, after so many events were done.
#[derive(Clone, Copy, Debug, PartialEq, Eq)]
pub enum RunFault {
    NoMemory(usize),
}
