// "1,024 of slot bookkeeping": a note of four bytes a slot. The notes of an object are lent on as a part, like its slots.
ghost use Rattle.std.specs.Prelude.{◌≡◌, ◌+◌, ◌-◌, ◌*◌, ◌≤◌, ◌++◌, length, replicate};
ghost use Rattle.words.specs.Sizes.{memory_length};
ghost use Rattle.state.specs.State.{splice, body};
ghost use Rattle.state.specs.Bytes.{each, note_of, note_bytes};

use crate::bytes::{put_run, put_word};
use words::fields::BYTE;
use words::layout::{LATER_TAG, NOTE_SIZE, NOTES};
use words::numbers::Slot;

// The tag is the low byte of a note, and the argument the next.
const LATER_NOTE: u32 = LATER_TAG as u32;

// The note of a first slot, and behind it those of the later slots, which name it.
fn fill_notes(part: &mut [u8], k: Slot, n: usize, tag: u8, argument: u8)
    requires { (length part.old ≡ 4 * n) × (1 ≤ n) }
    ensures { part.new ≡ note_of tag argument ++ each note_bytes (replicate (n - 1) (body k)) }
{
    put_run(part, n, LATER_NOTE + BYTE * (k.0 as u32));
    put_word(part, 0, (tag as u32) + BYTE * (argument as u32));
}

// The notes of a new object of n slots from k on.
pub fn store_notes(s: &mut [u8], k: Slot, n: u32, tag: u8, argument: u8)
    requires { (memory_length + 4 * k.0 + 4 * n ≤ length s.old) × (1 ≤ n) }
    ensures { s.new ≡ splice (memory_length + 4 * k.0) (note_of tag argument ++ each note_bytes (replicate (n - 1) (body k))) s.old }
{
    let at = NOTES + NOTE_SIZE * (k.0 as usize);
    let e = at + NOTE_SIZE * (n as usize);
    fill_notes(&mut s[at..e], k, n as usize, tag, argument);
}

pub fn clear_notes(s: &mut [u8], k: Slot, n: u32)
    requires { memory_length + 4 * k.0 + 4 * n ≤ length s.old }
    ensures { s.new ≡ splice (memory_length + 4 * k.0) (replicate (4 * n) 0) s.old }
{
    let at = NOTES + NOTE_SIZE * (k.0 as usize);
    let e = at + NOTE_SIZE * (n as usize);
    s[at..e].fill(0);
}
