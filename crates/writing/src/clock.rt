// "64 for the clock and spare": the clock is the first word of them.
ghost use Rattle.std.specs.Prelude.{◌≡◌, ◌+◌, ◌≤◌, length};
ghost use Rattle.words.specs.Sizes.{clock_offset};
ghost use Rattle.state.specs.State.{splice};
ghost use Rattle.state.specs.Bytes.{le32};

use crate::bytes::put_word;
use words::sizes::CLOCK_OFFSET;

pub fn store_clock(s: &mut [u8], c: u32)
    requires { clock_offset + 4 ≤ length s.old }
    ensures { s.new ≡ splice clock_offset (le32 c) s.old }
{
    put_word(s, CLOCK_OFFSET, c);
}
