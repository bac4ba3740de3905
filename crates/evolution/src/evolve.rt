//! How a state goes on, by the words of a program.
ghost use Rattle.std.specs.Prelude.{◌≡◌, is_none};
ghost use Rattle.evolution.specs.Agreement.{CompiledFrom};
ghost use Rattle.evolution.specs.Chart.{Chart};
ghost use Rattle.evolution.specs.Rules as rules;
ghost use Rattle.evolution.specs.Rules.{evolved, at_rest};
ghost use Rattle.evolution.specs.Words.{showing, state_in, ran, reached, kept, start, output_frame};

use crate::state::State;
use codefile::program::Program;
use frames::edges::Edges;
use machine::memory::Memory;
use words::instruction::Part;

impl State {
    // The memory with this state, the inputs and the edges, and all else empty.
    fn shown(self, inputs: u64, edges: Edges) -> Memory
        ensures { result ≡ showing inputs edges self }
    {
        Memory {
            active: self.active,
            stored: self.stored,
            before: 0,
            cleared: 0,
            held: 0,
            inputs,
            rises: edges.rises,
            falls: edges.falls,
        }
    }

    // X and Q.
    fn of(memory: Memory) -> State
        ensures { result ≡ state_in memory }
    {
        State {
            active: memory.active,
            stored: memory.stored,
        }
    }

    // The memory after an evolution.
    #[tactic(auto, unfolding(crate::specs::Words::ran))]
    fn ran(self, program: &Program, inputs: u64, edges: Edges) -> Memory
        ensures { result ≡ ran program.now inputs edges self }
    {
        let mut memory = self.shown(inputs, edges);
        memory.before = memory.active;
        memory.run(program, Part::Clear);
        memory.run(program, Part::Enter);
        memory
    }

    // The present X and Q; None if T is empty.
    fn reached(memory: Memory) -> Option<State>
        ensures { result ≡ reached memory }
    {
        (memory.cleared != 0).then(|| State::of(memory))
    }

    /// The start state of a program: its initial steps, and the stored outputs after their enter actions.
    #[tactic(auto, using(crate::proofs::Starting::start_as))]
    pub fn start(program: &Program) -> State
        ensures words { result ≡ start program.now }
        ensures chart { (c : Chart) → CompiledFrom c program.now → result ≡ rules.start c }
    {
        let initial = State {
            active: program.initial(),
            stored: 0,
        };
        let mut memory = initial.shown(0, Edges::none());
        memory.run(program, Part::Enter);
        State::of(memory)
    }

    /// The state after one evolution; None if nothing is cleared and the state stays as it is.
    #[tactic(auto, using(crate::proofs::Agreeing::evolved_as, crate::proofs::Agreeing::none_as))]
    pub fn evolve(self, program: &Program, inputs: u64, edges: Edges) -> Option<State>
        ensures words { result ≡ reached (ran program.now inputs edges self) }
        ensures chart { (c : Chart) → CompiledFrom c program.now → kept self result ≡ evolved c inputs edges self }
        ensures rest { (c : Chart) → CompiledFrom c program.now → is_none result ≡ at_rest c inputs edges self }
    {
        State::reached(self.ran(program, inputs, edges))
    }

    /// The output frame of the state: the union of its stored outputs and the held ones.
    #[tactic(auto, using(crate::proofs::Holding::outputs_as))]
    pub fn outputs(self, program: &Program, inputs: u64) -> u64
        ensures words { result ≡ output_frame program.now inputs self }
        ensures chart { (c : Chart) → CompiledFrom c program.now → result ≡ rules.output_frame c self }
    {
        let mut memory = self.shown(inputs, Edges::none());
        memory.run(program, Part::Hold);
        memory.stored | memory.held
    }
}
