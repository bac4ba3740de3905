//! The scan of one frame.
ghost use Rattle.frames.specs.Edges.{edges_between, no_edges};
ghost use Rattle.evolution.specs.Agreement.{CompiledFrom};
ghost use Rattle.evolution.specs.Words.{ran, reached};
ghost use Rattle.evolution.specs.Chart.{Chart};
ghost use Rattle.std.specs.Prelude.{◌≡◌, ◌<◌, ◌+◌};
ghost use Rattle.verdict.specs.Rules.{by_words, by_chart};
ghost use Rattle.verdict.specs.declared.outcome.Verdict.TheVariants.{Stable, Circling};
ghost use Rattle.verdict.specs.Scans.{Scanned, Settled};

use crate::outcome::{Outcome, Verdict};
use codefile::program::Program;
use evolution::state::State;
use frames::edges::Edges;
use search::earliest;

// The state after one evolution with no edges; None if it stays as it is.
fn next(program: &Program, state: State, inputs: u64) -> Option<State>
    ensures { result ≡ reached (ran program.now inputs no_edges state) }
{
    state.evolve(program, inputs, Edges::none())
}

// s(n + 1), this state, is the first stable one.
fn stable_at(n: usize, state: State) -> Outcome
    requires { n < 64 }
    ensures { result ≡ record { verdict = Stable (n + 1); state = state } }
{
    Outcome {
        verdict: Verdict::Stable(n as u8 + 1),
        state,
    }
}

// s(n + 1) repeats s(j + 1); this state is the one before the frame.
fn circling(j: usize, n: usize, state: State) -> Outcome
    requires earlier { j < 64 }
    requires few { n < 64 }
    ensures { result ≡ record { verdict = Circling (j + 1) (n + 1); state = state } }
{
    Outcome {
        verdict: Verdict::Circling(j as u8 + 1, n as u8 + 1),
        state,
    }
}

// The scan of a frame with these edges. Two equal states with none stable settle it at once.
#[tactic(auto, using(crate::proofs::Settling::loop_lemmas))]
fn settle(program: &Program, state: State, edges: Edges, inputs: u64) -> Outcome
    ensures { Settled (by_words program.now inputs) edges state result }
{
    let mut current = state.evolve(program, inputs, edges).unwrap_or(state);
    let mut states = [state; 64];
    for n in 0..64 {
        let Some(next) = next(program, current, inputs) else {
            return stable_at(n, current);
        };
        if let Some(j) = earliest(&states[..n], &current) {
            return circling(j, n, state);
        }
        states[n] = current;
        current = next;
    }
    Outcome {
        verdict: Verdict::Overlong,
        state,
    }
}

/// The verdict on a frame, and the state that it leads to.
#[tactic(auto, unfolding(crate::specs::Scans::Settled))]
pub fn scan(program: &Program, state: State, previous: Option<u64>, inputs: u64) -> Outcome
    ensures words { Scanned (by_words program.now inputs) (edges_between previous inputs) state result }
    ensures chart { (c : Chart) → CompiledFrom c program.now →
        Scanned (by_chart c inputs) (edges_between previous inputs) state result }
{
    settle(program, state, Edges::between(previous, inputs), inputs)
}
