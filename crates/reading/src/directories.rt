// The shape and the positions of a directory, read in the part of the lent state that its slots are.
ghost use Rattle.std.specs.Prelude.{◌≡◌, ◌+◌, ◌*◌, ◌≤◌, take, drop};
ghost use Rattle.words.specs.Sizes.{slot_size, header_size, position_size, slots_for};
ghost use Rattle.state.specs.State.{positions_in, position_at, shape_at};
ghost use Rattle.state.specs.Read.{positions_for, read};

use crate::bytes::{marked, slots_from, word_at};
use crate::notes::{argument_byte, tag_byte};
use crate::positions::position_of;
use words::capabilities::{Geometry, Position};
use words::layout::{DIRECTORY_TAG, START_AT, TOP_AT};
use words::numbers::Slot;
use words::sizes::{
    HEADER_SIZE, HEADER_SIZE_U32, MOST_NUMBER_ORDER, POSITION_SIZE, POSITION_SIZE_U32, slots_for,
};

// "2^k entries, k from 1 to 8"; 0 for a number order above 8, as `positions_for` of the layout
pub fn positions_for(k: u32) -> u32
    ensures { result ≡ positions_for k }
{
    if k <= MOST_NUMBER_ORDER { 1 << k } else { 0 }
}

fn positions_there(s: &[u8], d: Slot) -> u32
    ensures { (result ≡ positions_in (read s.now) d) × (result ≤ 256) }
{
    if tag_byte(s, d) == DIRECTORY_TAG {
        positions_for(argument_byte(s, d) as u32)
    } else {
        0
    }
}

// How many positions the directory in a slot has; 0 where there is no directory, as `positions_in` of the state. `position_at` goes by
// the function within, so that what this contract promises is asked for by its theorem in proofs/Tight.antt and by nothing else here.
pub fn positions_in(s: &[u8], d: Slot) -> u32
    ensures { result ≡ positions_in (read s.now) d }
{
    positions_there(s, d)
}

// "hands on just its slots": those of a directory with so many positions, "(32 + 8·2^k) bytes, rounded up".
pub fn directory_slots(s: &[u8], d: Slot, positions: u32) -> &[u8]
    requires { positions ≤ 256 }
    ensures { result.now ≡ take (slot_size * slots_for (header_size + position_size * positions)) (drop (slot_size * d.0) s.now) }
{
    slots_from(
        s,
        d,
        slots_for(HEADER_SIZE_U32 + POSITION_SIZE_U32 * positions) as u16,
    )
}

// A position of the directory in a slot; empty past the last.
pub fn position_at(s: &[u8], d: Slot, i: u32) -> Position
    ensures { result ≡ position_at (read s.now) d i }
{
    let positions = positions_there(s, d);
    if positions <= i {
        return Position::Empty;
    }
    let part = directory_slots(s, d, positions);
    position_of(part, HEADER_SIZE + POSITION_SIZE * (i as usize))
}

// The shape of the directory in a slot; all 0 where there is none, as `shape_at` of the state. The header, 32 bytes, lies in the
// directory's first slot: that slot is the part handed on.
pub fn shape_at(s: &[u8], d: Slot) -> Geometry
    ensures { result ≡ shape_at (read s.now) d }
{
    if tag_byte(s, d) == DIRECTORY_TAG {
        let part = slots_from(s, d, 1);
        Geometry {
            size: word_at(part, 0),
            number: argument_byte(s, d) as u32,
            top: marked(word_at(part, TOP_AT)),
            start: word_at(part, START_AT),
        }
    } else {
        Geometry {
            size: 0,
            number: 0,
            top: false,
            start: 0,
        }
    }
}
