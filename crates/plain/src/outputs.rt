//! The outputs, as the answers tell them.
ghost use Rattle.std.specs.Prelude.{◌≡◌, ℕ, Bool};
ghost use Rattle.plain.specs.declared.calls.Call.{Call as AnyCall};
ghost use Rattle.plain.specs.Behaviours.{Behaviour};
ghost use Rattle.plain.specs.Charts.{Plain, Answers};
ghost use Rattle.plain.specs.Outputs.{outputs_after};

use crate::calls::Answer;

impl Answer {
    /// The outputs after a call with this answer, from those before it, as the plain chart has them.
    #[tactic(auto, using(crate::proofs::Telling::told))]
    pub fn outputs(self, before: u64) -> u64
        ensures value { result ≡ outputs_after self before }
        ensures plain { (b : Behaviour) (call : AnyCall) (live : Bool) (inputs : ℕ) (p q : Plain) →
            Answers b call live inputs p self q → p.outputs ≡ before → q.outputs ≡ result }
    {
        match self {
            Answer::Delivered(frame) => frame,
            Answer::Done | Answer::Found(_) | Answer::Refused(_) => before,
        }
    }
}
