// The entries of a table, read in the part of the lent state that the table's slots are.
ghost use Rattle.std.specs.Prelude.{◌≡◌, ◌*◌, ◌≤◌, take, drop};
ghost use Rattle.words.specs.Sizes.{slot_size, entry_size, place_count, slots_for};
ghost use Rattle.state.specs.State.{entries_in, place_at};
ghost use Rattle.state.specs.Read.{read};

use crate::bytes::slots_from;
use crate::notes::{argument_byte, tag_byte};
use crate::places::place_of;
use words::capabilities::Place;
use words::layout::TABLE_TAG;
use words::numbers::Slot;
use words::sizes::{ENTRY_SIZE, ENTRY_SIZE_U32, slots_for};

// How many entries the table in a slot has; 0 where there is no table, as `entries_in` of the state.
pub fn entries_in(s: &[u8], t: Slot) -> u32
    ensures { result ≡ entries_in (read s.now) t }
{
    if tag_byte(s, t) == TABLE_TAG {
        argument_byte(s, t) as u32
    } else {
        0
    }
}

// "hands on just its slots": those of a table with so many entries, "entries·32 bytes, rounded up to slots".
pub fn table_slots(s: &[u8], t: Slot, entries: u32) -> &[u8]
    requires { entries ≤ place_count }
    ensures { result.now ≡ take (slot_size * slots_for (entry_size * entries)) (drop (slot_size * t.0) s.now) }
{
    slots_from(s, t, slots_for(ENTRY_SIZE_U32 * entries) as u16)
}

// An entry of the table in a slot; blank past its entries. Table and entry stand apart, as `place_at` of the state has them.
pub fn place_at(s: &[u8], t: Slot, e: u32) -> Place
    ensures { result ≡ place_at (read s.now) t e }
{
    let entries = entries_in(s, t);
    if entries <= e {
        return None;
    }
    let part = table_slots(s, t, entries);
    place_of(part, ENTRY_SIZE * (e as usize))
}
