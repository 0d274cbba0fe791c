//! Numbers that are drawn, one from another.
ghost use Rattle.std.specs.Prelude.{◌≡◌};
ghost use Rattle.trial_round.specs.Draws.{next_state, state_after};

/// The state of a generator of 32 bits, which began with a seed, and how many numbers it has drawn.
#[derive(Drop)]
pub struct Draws {
    seed: u32,
    made: u32,
    state: u32,
    ghost drawn: { state ≡ state_after seed made },
}

impl Draws {
    ghost use Rattle.std.specs.Prelude.{◌≡◌, ◌+◌, ◌<◌, ◌^◌};
    ghost use Rattle.trial_round.specs.Draws.{draw};

    /// A generator that begins with a seed and has drawn nothing.
    #[tactic(auto, using(crate::proofs::Drawn::state_none))]
    pub fn new(seed: u32) -> Draws
        ensures seed { result.seed ≡ seed }
        ensures made { result.made ≡ 0 }
    {
        Draws {
            seed,
            made: 0,
            state: seed,
        }
    }

    /// Draws the next number, the upper 16 bits of the next state.
    #[tactic(auto, using(crate::proofs::Drawn::state_more, crate::proofs::Drawn::draw_more, crate::proofs::Drawn::draw_short))]
    pub fn next(&mut self) -> u32
        requires { self.old.made + 1 < 2 ^ 32 }
        ensures drawn { result ≡ draw self.old.seed (self.old.made + 1) }
        ensures short { result < 2 ^ 16 }

        // The generator goes on.
        ensures made { self.new.made ≡ self.old.made + 1 }
        ensures seed { self.new.seed ≡ self.old.seed }
    {
        let state = next_state(self.state);
        *self = Draws {
            seed: self.seed,
            made: self.made + 1,
            state,
        };
        state / 65_536
    }
}

// The state after one more draw.
#[tactic(auto, unfolding(crate::specs::Draws::next_state))]
fn next_state(state: u32) -> u32
    ensures { result ≡ next_state state }
{
    ((u64::from(state) * 1_664_525 + 1_013_904_223) % (1 << 32)) as u32
}
