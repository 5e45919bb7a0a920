// The "slot bookkeeping": what the note of a slot tells of the object that stands there.
ghost use Rattle.std.specs.Prelude.{◌≡◌, ◌+◌, ◌*◌, ◌<◌, get_or};
ghost use Rattle.words.specs.Sizes.{memory_length, slot_count};
ghost use Rattle.words.specs.Tests.{all_below};
ghost use Rattle.words.specs.Fields.{slot};
ghost use Rattle.state.specs.State.{obj_at, is_free, first_of};
ghost use Rattle.state.specs.Bytes.{tag_of};
ghost use Rattle.state.specs.Read.{read};

use crate::bytes::byte_at;
use words::layout::{ENDPOINT_TAG, FREE_TAG, LATER_TAG, NOTE_ARGUMENTS, NOTE_SIZE, NOTES};
use words::numbers::Slot;
use words::sizes::SLOT_COUNT_U32;

// The two bytes of a note as they stand: the tag, and a table's entries, a directory's number order or the first slot.
pub fn tag_byte(s: &[u8], k: Slot) -> u8
    ensures { result ≡ get_or s.now (memory_length + 4 * k.0) 0 }
{
    let o = k.0 as usize;
    byte_at(s, NOTES + NOTE_SIZE * o)
}

pub fn argument_byte(s: &[u8], k: Slot) -> u8
    ensures { result ≡ get_or s.now (memory_length + 1 + 4 * k.0) 0 }
{
    let o = k.0 as usize;
    byte_at(s, NOTE_ARGUMENTS + NOTE_SIZE * o)
}

// What stands in a slot: 0 nothing, 1 an object that goes on, 2 a table, 3 a directory, 4 a process, 5 an endpoint. That is the last tag.
// The kinds are numbers here, and no enum: they are the layout's (docs/LAYOUT.md), and `tag_of` of state/specs/Bytes.antt gives them.
pub fn tag_at(s: &[u8], k: Slot) -> u8
    ensures { result ≡ tag_of (obj_at (read s.now) k) }
{
    let n = tag_byte(s, k);
    if n <= ENDPOINT_TAG { n } else { FREE_TAG }
}

fn is_free(s: &[u8], k: Slot) -> bool
    ensures { result ≡ is_free (obj_at (read s.now) k) }
{
    tag_at(s, k) == FREE_TAG
}

// The first slot of what stands in a slot.
pub fn first_at(s: &[u8], k: Slot) -> Slot
    ensures { result ≡ first_of k.0 (obj_at (read s.now) k) }
{
    if tag_byte(s, k) == LATER_TAG {
        Slot(argument_byte(s, k))
    } else {
        k
    }
}

fn free_after(s: &[u8], k: Slot, i: u32) -> bool
    requires { k.0 + i < slot_count }
    ensures { result ≡ is_free (obj_at (read s.now) (slot (k.0 + i))) }
{
    is_free(s, Slot((k.0 as u32 + i) as u8))
}

// "some needed slot is occupied": whether the n slots from slot k on are all free. Past the last slot nothing stands.
pub fn all_free(s: &[u8], k: Slot, n: u32) -> bool
    ensures { result ≡ all_below n (λ i. is_free (obj_at (read s.now) (slot (k.0 + i)))) }
{
    let left = SLOT_COUNT_U32 - k.0 as u32;
    for i in 0..n.min(left) {
        if !free_after(s, k, i) {
            return false;
        }
    }
    true
}
