//! The draws that a season is made of.
ghost use Rattle.clr_make.specs.Draws.{draw, next_state, state_after};
ghost use Rattle.std.specs.Prelude.{◌≡◌, ◌+◌, ◌/◌, ◌<◌, ◌^◌, ℕ};

/// The multiplier of the generator (Knuth, The Art of Computer Programming, volume 2, section 3.3.4).
const MULTIPLIER: u64 = 6_364_136_223_846_793_005;

/// What a draw adds after the multiplication, modulo 2^64.
const STEP: u64 = 1_442_695_040_888_963_407;

/// A linear congruential generator of 64 bits.
#[derive(Drop)]
pub(crate) struct Draws {
    pub(crate) state: u64,
}

impl Draws {
    /// A generator before its first draw. Its state is the seed.
    pub(crate) fn new(seed: u32) -> Draws
        ensures { result.state ≡ state_after seed 0 }
    {
        Draws {
            state: u64::from(seed),
        }
    }

    /// The next draw: the upper 31 bits of the next state.
    pub(crate) fn draw(&mut self) -> u32
        ensures follows { (seed number : ℕ) → self.old.state ≡ state_after seed number →
            self.new.state ≡ state_after seed (number + 1) }
        ensures value { (seed number : ℕ) → self.old.state ≡ state_after seed number →
            result ≡ draw seed (number + 1) }
        ensures range { result < 2 ^ 31 }
    {
        self.state = next_state(self.state);
        (self.state >> 33) as u32
    }
}

/// The state after one more draw.
fn next_state(state: u64) -> u64
    ensures { result ≡ next_state state }
{
    state.wrapping_mul(MULTIPLIER).wrapping_add(STEP)
}
