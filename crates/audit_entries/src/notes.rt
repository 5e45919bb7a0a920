// The two bytes of a note, read in a buffer of a state's length, so that no read is tested: `reading::notes` has both for a buffer of any
// length, where each read is. A function for each byte, since a caller wants one of them.
ghost use Rattle.std.specs.Prelude.{◌≡◌, ◌+◌, ◌*◌, get_or, length};
ghost use Rattle.words.specs.Sizes.{memory_length, state_length};

use words::layout::{NOTE_ARGUMENTS, NOTE_SIZE, NOTES};
use words::numbers::Slot;

pub fn tag_in(s: &[u8], k: Slot) -> u8
    requires { length s.now ≡ state_length }
    ensures { result ≡ get_or s.now (memory_length + 4 * k.0) 0 }
{
    s[NOTES + NOTE_SIZE * (k.0 as usize)]
}

pub fn argument_in(s: &[u8], k: Slot) -> u8
    requires { length s.now ≡ state_length }
    ensures { result ≡ get_or s.now (memory_length + 1 + 4 * k.0) 0 }
{
    s[NOTE_ARGUMENTS + NOTE_SIZE * (k.0 as usize)]
}
