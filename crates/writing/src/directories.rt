// A position of a directory, eight bytes behind the 32 of the header: what, flags, two zeros, and the frame or the child's slot.
ghost use Rattle.std.specs.Prelude.{◌≡◌, ◌+◌, ◌*◌, ◌<◌, ◌≤◌, length};
ghost use Rattle.words.specs.Sizes.{slot_size, header_size, position_size};
ghost use Rattle.state.specs.State.{splice};
ghost use Rattle.state.specs.Bytes.{words_bytes, position_bytes};
ghost use Rattle.writing.specs.Flags.{position_flags};

use crate::bytes::store_words;
use words::capabilities::Position;
use words::fields::BYTE;
use words::layout::{CHILD, PAGE, WORD_SIZE};
use words::numbers::Slot;
use words::sizes::{HEADER_SIZE, POSITION_SIZE, SLOT_SIZE};

const POSITION_WORDS: usize = POSITION_SIZE / WORD_SIZE;

// What a position holds, as the low byte of its first word.
const PAGE_WORD: u32 = PAGE as u32;

const CHILD_WORD: u32 = CHILD as u32;

// What and flags share a word.
fn position_words(x: Position) -> [u32; POSITION_WORDS]
    requires { position_flags x < 256 }
    ensures { words_bytes result ≡ position_bytes x }
{
    match x {
        Position::Empty => [0, 0],
        Position::Page { frame, flags } => [PAGE_WORD + BYTE * flags, frame],
        Position::Child { object, flags } => [CHILD_WORD + BYTE * flags, object.0 as u32],
    }
}

// Position i of the directory whose first slot is d.
pub fn store_position(s: &mut [u8], d: Slot, i: u32, x: Position)
    requires { (slot_size * d.0 + header_size + position_size * i + position_size ≤ length s.old) × (position_flags x < 256) }
    ensures { s.new ≡ splice (slot_size * d.0 + header_size + position_size * i) (position_bytes x) s.old }
{
    let at = SLOT_SIZE * (d.0 as usize) + HEADER_SIZE + POSITION_SIZE * (i as usize);
    store_words(s, at, &position_words(x)[..]);
}
