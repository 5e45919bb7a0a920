// Whether a table is empty: its entries are read in its own part of the lent state, left at the first filled one.
ghost use Rattle.std.specs.Prelude.{◌≡◌, ◌*◌, ◌≤◌, drop, take};
ghost use Rattle.words.specs.Rights.{is_blank};
ghost use Rattle.words.specs.Sizes.{entry_size, slot_size, slots_for};
ghost use Rattle.state.specs.Read.{place_of, read};
ghost use Rattle.rules.specs.Calls.{is_empty_table};

use reading::places::place_of;
use reading::tables::{entries_in, table_slots};
use words::numbers::Slot;
use words::sizes::ENTRY_SIZE;

// Entry e of the table whose slots are the part.
fn is_blank_at(part: &[u8], e: u32) -> bool
    requires { e ≤ 255 }
    ensures { result ≡ is_blank (place_of part.now (entry_size * e)) }
{
    place_of(part, ENTRY_SIZE * (e as usize)).is_none()
}

pub(crate) fn is_empty_table(s: &[u8], o: Slot) -> bool
    ensures { result ≡ is_empty_table (read s.now) o }
{
    let entries = entries_in(s, o);
    let part = table_slots(s, o, entries);
    for e in 0..entries {
        if !is_blank_at(part, e) {
            return false;
        }
    }
    true
}
