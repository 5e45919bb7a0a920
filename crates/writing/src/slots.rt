// "The object's own slots are lent on as a mutable part, zeroed at deletion and filled at creation."
ghost use Rattle.std.specs.Prelude.{◌≡◌, ◌+◌, ◌-◌, ◌*◌, ◌≤◌, ◌++◌, length, replicate};
ghost use Rattle.words.specs.Sizes.{slot_size};
ghost use Rattle.state.specs.State.{splice};
ghost use Rattle.state.specs.Bytes.{words_bytes};

use crate::bytes::store_words;
use words::numbers::Slot;
use words::sizes::SLOT_SIZE;

// How many words an object begins with: those of a directory's header, the most of any kind.
pub const FIRST_WORDS: usize = 3;

// The first words, and zeros: a new object in its own slots.
fn fill(part: &mut [u8], first: [u32; FIRST_WORDS])
    requires { 12 ≤ length part.old }
    ensures { part.new ≡ words_bytes first ++ replicate (length part.old - 12) 0 }
{
    part.fill(0);
    store_words(part, 0, &first[..]);
}

// The n slots from k on: slot and number apart, as the notes' writers and the layout's definitions have them.
pub fn fill_slots(s: &mut [u8], k: Slot, n: u32, first: [u32; FIRST_WORDS])
    requires { (slot_size * k.0 + slot_size * n ≤ length s.old) × (1 ≤ n) }
    ensures { s.new ≡ splice (slot_size * k.0) (words_bytes first ++ replicate (slot_size * n - 12) 0) s.old }
{
    let at = SLOT_SIZE * (k.0 as usize);
    let e = at + SLOT_SIZE * (n as usize);
    fill(&mut s[at..e], first);
}

pub fn clear_slots(s: &mut [u8], k: Slot, n: u32)
    requires { slot_size * k.0 + slot_size * n ≤ length s.old }
    ensures { s.new ≡ splice (slot_size * k.0) (replicate (slot_size * n) 0) s.old }
{
    let at = SLOT_SIZE * (k.0 as usize);
    let e = at + SLOT_SIZE * (n as usize);
    s[at..e].fill(0);
}
