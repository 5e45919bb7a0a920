// "a process names a live table and a live top directory": the two slots that it names; slot 0 where there is no process.
ghost use Rattle.std.specs.Prelude.{◌≡◌, ◌+◌, ◌*◌, ◌≤◌, get_or};
ghost use Rattle.words.specs.Fields.{slot};
ghost use Rattle.words.specs.Sizes.{slot_size};
ghost use Rattle.state.specs.State.{obj_at, table_named, directory_named};
ghost use Rattle.state.specs.Read.{read};
ghost use Rattle.reading.specs.Tagged.{if_tagged};

use crate::bytes::byte_at;
use crate::notes::tag_byte;
use words::layout::{DIRECTORY_NAMED_AT, PROCESS_TAG};
use words::numbers::Slot;
use words::sizes::SLOT_SIZE;

// The slot that a byte of the process in a slot names; slot 0 where there is no process, as `table_named` and `directory_named` of the state.
fn named(s: &[u8], p: Slot, at: usize) -> Slot
    requires { at ≤ slot_size }
    ensures { result ≡ if_tagged s.now p.0 4 (slot (get_or s.now (slot_size * p.0 + at) 0)) (slot 0) }
{
    if tag_byte(s, p) == PROCESS_TAG {
        Slot(byte_at(s, SLOT_SIZE * (p.0 as usize) + at))
    } else {
        Slot(0)
    }
}

pub fn table_named(s: &[u8], p: Slot) -> Slot
    ensures { result ≡ table_named (obj_at (read s.now) p) }
{
    named(s, p, 0)
}

pub fn directory_named(s: &[u8], p: Slot) -> Slot
    ensures { result ≡ directory_named (obj_at (read s.now) p) }
{
    named(s, p, DIRECTORY_NAMED_AT)
}
