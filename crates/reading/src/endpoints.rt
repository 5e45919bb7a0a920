// The count of an endpoint, and "the boot endpoint bears a mark that no call sets".
ghost use Rattle.std.specs.Prelude.{◌≡◌, ◌+◌, ◌*◌, ◌≤◌};
ghost use Rattle.words.specs.Sizes.{slot_size};
ghost use Rattle.state.specs.State.{obj_at, count_of, boot_mark};
ghost use Rattle.state.specs.Read.{read, word_at};
ghost use Rattle.reading.specs.Tagged.{if_tagged};

use crate::bytes::{marked, word_at};
use crate::notes::tag_byte;
use words::layout::{BOOT_MARK_AT, ENDPOINT_TAG};
use words::numbers::{Count, Slot};
use words::sizes::SLOT_SIZE;

// A word of the endpoint in a slot; 0 where there is no endpoint, as `count_of` and `boot_mark` of the state.
fn endpoint_word(s: &[u8], e: Slot, at: usize) -> u32
    requires { at ≤ slot_size }
    ensures { result ≡ if_tagged s.now e.0 5 (word_at s.now (slot_size * e.0 + at)) 0 }
{
    if tag_byte(s, e) == ENDPOINT_TAG {
        word_at(s, SLOT_SIZE * (e.0 as usize) + at)
    } else {
        0
    }
}

pub fn count_at(s: &[u8], e: Slot) -> Count
    ensures { result.0 ≡ count_of (obj_at (read s.now) e) }
{
    Count(endpoint_word(s, e, 0))
}

pub fn boot_mark_at(s: &[u8], e: Slot) -> bool
    ensures { result ≡ boot_mark (obj_at (read s.now) e) }
{
    marked(endpoint_word(s, e, BOOT_MARK_AT))
}
