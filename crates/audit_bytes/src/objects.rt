// What stands in each slot, in the part of the buffer that its slots are.
ghost use Rattle.std.specs.Prelude.{true, ◌≡◌, ◌*◌, drop, length, take};
ghost use Rattle.audit_bytes.specs.Stands.{endpoint_in, object_stands, process_in, starts};
ghost use Rattle.audit_entries.specs.Vacant.{Vacant};
ghost use Rattle.rules.specs.WellFormed.{apart};
ghost use Rattle.state.specs.Bytes.{memory_bytes};
ghost use Rattle.state.specs.Read.{read};
ghost use Rattle.state.specs.State.{obj_at, size_of};
ghost use Rattle.words.specs.Fields.{slot};
ghost use Rattle.words.specs.Sizes.{slot_count, slot_size, state_length};
ghost use Rattle.words.specs.Tests.{all_below};

use crate::directories::directory_stands;
use crate::tables::table_stands;
use crate::zeros::zeros_in;
use audit_entries::word_in;
use audit_layout::sizes::size_at;
use reading::bytes::slots_from;
use reading::directories::positions_in;
use reading::notes::{argument_byte, tag_byte};
use words::layout::{
    BOOT_MARK_AT, DIRECTORY_NAMED_AT, DIRECTORY_TAG, ENDPOINT_TAG, LATER_TAG, OBJECT_SPARE_AT,
    OBJECT_SPARE_WORDS, PROCESS_TAG, SLOT_WORDS, TABLE_TAG,
};
use words::numbers::Slot;
use words::sizes::{SLOT_COUNT, SLOT_COUNT_U32, SLOT_SIZE};

// Two slots, and zeros.
fn process_stands(p: &[u8]) -> bool
    requires { length p.now ≡ slot_size }
    ensures { result ≡ starts (memory_bytes (process_in p.now)) p.now }
{
    word_in(p, 0) < SLOT_COUNT_U32
        && word_in(p, DIRECTORY_NAMED_AT) < SLOT_COUNT_U32
        && zeros_in(p, OBJECT_SPARE_AT, OBJECT_SPARE_WORDS)
}

// Any count, a boot mark of 0 or 1, and zeros.
fn endpoint_stands(p: &[u8]) -> bool
    requires { length p.now ≡ slot_size }
    ensures { result ≡ starts (memory_bytes (endpoint_in p.now)) p.now }
{
    word_in(p, BOOT_MARK_AT) <= 1 && zeros_in(p, OBJECT_SPARE_AT, OBJECT_SPARE_WORDS)
}

// "hands on just its slots": those of what stands in a slot.
fn own_slots(s: &[u8], k: Slot) -> &[u8]
    requires { length s.now ≡ state_length }
    ensures { result.now ≡ take (slot_size * size_of (obj_at (read s.now) k)) (drop (slot_size * k.0) s.now) }
{
    slots_from(s, k, size_at(s, k))
}

// A slot in which an object goes on has nothing of its own. Most slots are free: they are looked at where they lie. Tags are the layout's
// numbers (docs/LAYOUT.md).
fn object_stands(s: &[u8], k: Slot) -> bool
    requires { (length s.now ≡ state_length) × (apart (read s.now) ≡ true) }
    ensures { result ≡ object_stands s.now k }
{
    match tag_byte(s, k) {
        LATER_TAG => true,
        TABLE_TAG => table_stands(own_slots(s, k), argument_byte(s, k)),
        DIRECTORY_TAG => directory_stands(own_slots(s, k), positions_in(s, k)),
        PROCESS_TAG => process_stands(own_slots(s, k)),
        ENDPOINT_TAG => endpoint_stands(own_slots(s, k)),
        _ => zeros_in(s, SLOT_SIZE * (k.0 as usize), SLOT_WORDS),
    }
}

// Behind the n slots that are used each slot is free, and no note is read.
// Two `for` loops: as `all` over the two ranges the check of the boot state takes 7,414 instructions, and so 6,907.
pub(crate) fn objects_stand(s: &[u8], n: usize) -> bool
    requires { (length s.now ≡ state_length) × (apart (read s.now) ≡ true) × Vacant s.now n }
    ensures { result ≡ all_below slot_count (λ k. object_stands s.now (slot k)) }
{
    for k in 0..n {
        if !object_stands(s, Slot(k as u8)) {
            return false;
        }
    }
    for k in n..SLOT_COUNT {
        if !zeros_in(s, SLOT_SIZE * k, SLOT_WORDS) {
            return false;
        }
    }
    true
}
