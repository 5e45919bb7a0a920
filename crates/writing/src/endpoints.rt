// The count of an endpoint, one store like those of processes.rt, each with its own contract. No writer here touches the boot mark behind it:
// "a mark that no call sets".
ghost use Rattle.std.specs.Prelude.{◌≡◌, ◌+◌, ◌*◌, ◌≤◌, length};
ghost use Rattle.words.specs.Sizes.{slot_size};
ghost use Rattle.state.specs.State.{splice};
ghost use Rattle.state.specs.Bytes.{le32};

use crate::bytes::put_word;
use words::numbers::{Count, Slot};
use words::sizes::SLOT_SIZE;

pub fn store_count(s: &mut [u8], e: Slot, c: Count)
    requires { slot_size * e.0 + 4 ≤ length s.old }
    ensures { s.new ≡ splice (slot_size * e.0) (le32 c.0) s.old }
{
    put_word(s, SLOT_SIZE * (e.0 as usize), c.0);
}
