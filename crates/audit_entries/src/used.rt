// How far the slots are used. The check walks no slot behind the last one that is: what a free slot is asked for, they all meet.
ghost use Rattle.std.specs.Prelude.{◌≡◌, length};
ghost use Rattle.audit_entries.specs.Vacant.{Used};
ghost use Rattle.words.specs.Sizes.{state_length};

use crate::word_in;
use words::layout::{NOTE_SIZE, NOTES};
use words::sizes::SLOT_COUNT;

// The least number of slots behind which every note is zeros. The search goes from the last slot down.
pub fn used(s: &[u8]) -> usize
    requires { length s.now ≡ state_length }
    ensures { Used s.now result }
{
    for k in (0..SLOT_COUNT).rev() {
        if word_in(s, NOTES + NOTE_SIZE * k) != 0 {
            return k + 1;
        }
    }
    0
}
