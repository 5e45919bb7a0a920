// "64 for the clock and spare": the clock is the first word of the last 64 bytes.
ghost use Rattle.std.specs.Prelude.{◌≡◌};
ghost use Rattle.state.specs.Read.{read};

use crate::bytes::word_at;
use words::sizes::CLOCK_OFFSET;

#[tactic(auto, unfolding(state::specs::Read::read))]
pub fn clock(s: &[u8]) -> u32
    ensures { result ≡ (read s.now).clock }
{
    word_at(s, CLOCK_OFFSET)
}
