//! The controller's parts.
ghost use Rattle.std.specs.Prelude.{◌≡◌, IfOk};
ghost use Rattle.controller.specs.Parts.{OutcomeHolds};
ghost use Rattle.controller.specs.Standing.{Fresh};

use crate::phase::Phase;
use codefile::program::Program;
use evolution::state::State;
use std::alloc::{AllocError, Global};
use std::marker::Model;

/// Runs the program of a code file. Its room is reserved once: no call but `new` allocates.
#[derive(Drop)]
pub struct Controller {
    pub(crate) program: Program,
    pub(crate) state: State,
    /// The frame of the last stable scan that was delivered since the last load or restart.
    pub(crate) previous: Option<u64>,
    pub(crate) phase: Phase,
}

impl Model for Controller {
    ghost use Rattle.controller.specs.Parts.{Parts, OutcomeHolds};

    ghost Value = { Parts };

    ghost view = { λ c. record { program = c.program; state = c.state; previous = c.previous; phase = c.phase } };

    ghost invariant = { λ c. OutcomeHolds c.program c.state c.previous c.phase };
}

impl Controller {
    /// An idle controller whose program is empty.
    pub fn new(heap: Global) -> Result<Controller, AllocError>
        ensures { IfOk result Fresh }
    {
        Ok(Controller {
            program: Program::new(heap)?,
            state: State {
                active: 0,
                stored: 0,
            },
            previous: None,
            phase: Phase::Idle,
        })
    }

    /// The program that is loaded.
    pub fn program(&self) -> &Program
        ensures { result.now ≡ self.now.program }
    {
        &self.program
    }

    /// The state.
    pub fn state(&self) -> State
        ensures { result ≡ self.now.state }
    {
        self.state
    }

    /// The frame of the last stable scan that was delivered since the last load or restart, if there is one: edges are judged against it.
    pub fn previous(&self) -> Option<u64>
        ensures { result ≡ self.now.previous }
    {
        self.previous
    }

    /// The phase, with its open scan. The outcome of a worked scan is what its frame comes to.
    pub fn phase(&self) -> Phase
        ensures phase { result ≡ self.now.phase }
        ensures outcome { OutcomeHolds self.now.program self.now.state self.now.previous result }
    {
        self.phase
    }
}
