// REFCNT, "has children": the entries of every table are searched, left at the first child found.
ghost use Rattle.std.specs.Prelude.{◌≡◌, ◌*◌, ◌<◌, ◌^◌, ◌≤◌, drop, take};
ghost use Rattle.words.specs.Fields.{slot};
ghost use Rattle.words.specs.Sizes.{entry_size, slot_count, slot_size, slots_for};
ghost use Rattle.state.specs.Read.{place_of, read};
ghost use Rattle.state.specs.State.{place_number};
ghost use Rattle.rules.specs.Places.{has_children, is_child_of};

use reading::bytes::word_at;
use reading::tables::{entries_in, table_slots};
use words::actions::Spot;
use words::layout::{BLANK, FUNCTION_KIND, PARENT_AT};
use words::numbers::Slot;
use words::sizes::{ENTRY_SIZE, SLOT_COUNT_U32};

// The number of a place, by which a child names its parent; as wide as the sum may be, since a place is any word.
fn place_number(p: Spot) -> u64
    ensures { result ≡ place_number p }
{
    2 * (p.table.0 as u64) + p.entry as u64
}

pub fn slot_numbered(k: u32) -> Slot
    requires { k < slot_count }
    ensures { result ≡ slot k }
{
    Slot(k as u8)
}

// Entry e of the table whose slots are the part: its parent's word is the parent's place number and 1, and its kind's is 1 to 6.
fn is_child(part: &[u8], e: u32, n: u64) -> bool
    requires { (e ≤ 255) × (n < 2 ^ 33) }
    ensures { result ≡ is_child_of n (place_of part.now (entry_size * e)) }
{
    let at = ENTRY_SIZE * (e as usize);
    if word_at(part, at + PARENT_AT) as u64 != n + 1 {
        return false;
    }
    let kind = word_at(part, at);
    if kind == BLANK {
        return false;
    }
    kind <= FUNCTION_KIND
}

// Labelled loops, left at the first one found: document 01 names the form for this search.
pub(crate) fn has_children(s: &[u8], p: Spot) -> bool
    ensures { result ≡ has_children (read s.now) p }
{
    let n = place_number(p);
    let mut found = false;
    'search: for k in 0..SLOT_COUNT_U32 {
        let t = slot_numbered(k);
        let entries = entries_in(s, t);
        if 0 < entries {
            let part = table_slots(s, t, entries);
            for e in 0..entries {
                if is_child(part, e, n) {
                    found = true;
                    break 'search;
                }
            }
        }
    }
    found
}
