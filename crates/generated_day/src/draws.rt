//! Draws of numbers.
ghost use Rattle.std.specs.Prelude.{◌≡◌, ◌<◌};
ghost use Rattle.generated_day.specs.Draws as spec;

/// The state that draws lead on.
#[derive(Debug, Clone, Copy)]
pub struct Draws {
    pub state: u32,
}

const STATE_LIMIT: u64 = 2_147_483_648;

impl Draws {
    /// The draws of a seed.
    pub fn from_seed(seed: u32) -> Draws
        ensures state { result.state ≡ spec.first_state seed }
    {
        Draws {
            state: (seed as u64 % STATE_LIMIT) as u32,
        }
    }

    /// The next number below a limit.
    #[tactic(auto, unfolding(crate::specs::Draws::draw))]
    pub fn draw(&mut self, limit: u32) -> u32
        requires limit { 0 < limit }
        ensures value { result ≡ spec.draw limit self.old.state }
        ensures below { result < limit }
        ensures state { self.new.state ≡ spec.next self.old.state }
    {
        self.state = next(self.state);
        self.state / 65_536 % limit
    }
}

#[tactic(auto, unfolding(crate::specs::Draws::next))]
fn next(state: u32) -> u32
    ensures { result ≡ spec.next state }
{
    ((state as u64 * 1_103_515_245 + 12_345) % STATE_LIMIT) as u32
}
