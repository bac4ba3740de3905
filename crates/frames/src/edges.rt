//! The edges of the inputs, from one frame to the next.
ghost use Rattle.std.specs.Prelude.{◌≡◌};
ghost use Rattle.frames.specs.Edges.{only_in, no_edges, edges_between};

/// The rises and the falls of the inputs, one bit for each input.
#[derive(Clone, Copy, PartialEq, Eq, Debug)]
pub struct Edges {
    pub rises: u64,
    pub falls: u64,
}

// The bits that are set in one frame and clear in the other.
#[tactic(auto, using(crate::proofs::BitLaws::only_in_packs))]
fn on_only(frame: u64, other: u64) -> u64
    ensures { result ≡ only_in frame other }
{
    frame & !other
}

impl Edges {
    /// Neither a rise nor a fall.
    pub fn none() -> Edges
        ensures { result ≡ no_edges }
    {
        Edges { rises: 0, falls: 0 }
    }

    /// The inputs that changed between the two frames, to off or to on; without a previous frame none did.
    pub fn between(previous: Option<u64>, frame: u64) -> Edges
        ensures { result ≡ edges_between previous frame }
    {
        match previous {
            None => Edges::none(),
            Some(before) => Edges {
                rises: on_only(frame, before),
                falls: on_only(before, frame),
            },
        }
    }
}
