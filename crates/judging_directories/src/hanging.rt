// PGT_HW, "directory has a child or is one": positions are searched in the parts of the lent state that the directories' slots are, and
// the search is left at the first one found.
ghost use Rattle.std.specs.Prelude.{◌≡◌, ◌*◌, ◌+◌, ◌≤◌, drop, take};
ghost use Rattle.words.specs.Sizes.{header_size, position_size, slot_size, slots_for};
ghost use Rattle.state.specs.Read.{position_of, read};
ghost use Rattle.rules.specs.Calls.{hangs_somewhere, has_child_directory, is_child, is_child_at};

use judging_deletions::children::slot_numbered;
use judging_pages::positions::is_child;
use reading::directories::{directory_slots, positions_in};
use reading::positions::position_of;
use words::capabilities::Position;
use words::numbers::Slot;
use words::sizes::{HEADER_SIZE, POSITION_SIZE, SLOT_COUNT_U32};

// Position i of the directory whose slots are the part. The bound on i stands at three readers: it keeps a sum from wrapping, and is no type.
fn position_in(part: &[u8], i: u32) -> Position
    requires { i ≤ 255 }
    ensures { result ≡ position_of part.now (header_size + position_size * i) }
{
    position_of(part, HEADER_SIZE + POSITION_SIZE * (i as usize))
}

fn holds_child(part: &[u8], i: u32) -> bool
    requires { i ≤ 255 }
    ensures { result ≡ is_child (position_of part.now (header_size + position_size * i)) }
{
    is_child(position_in(part, i))
}

fn is_child_at(d: Slot, x: Position) -> bool
    ensures { result ≡ is_child_at d x }
{
    match x {
        Position::Child { object, .. } => object == d,
        Position::Empty | Position::Page { .. } => false,
    }
}

fn holds_this(part: &[u8], i: u32, d: Slot) -> bool
    requires { i ≤ 255 }
    ensures { result ≡ is_child_at d (position_of part.now (header_size + position_size * i)) }
{
    is_child_at(d, position_in(part, i))
}

// Labelled loops, left at the first one found: document 01 names the form for this search.
pub(crate) fn has_child_directory(s: &[u8], d: Slot) -> bool
    ensures { result ≡ has_child_directory (read s.now) d }
{
    let positions = positions_in(s, d);
    let part = directory_slots(s, d, positions);
    let mut found = false;
    'search: for i in 0..positions {
        if holds_child(part, i) {
            found = true;
            break 'search;
        }
    }
    found
}

// "A directory deleted while it hangs under another" is the slip that this search keeps out: it passes every directory, by labelled loops too.
pub(crate) fn hangs_somewhere(s: &[u8], d: Slot) -> bool
    ensures { result ≡ hangs_somewhere (read s.now) d }
{
    let mut found = false;
    'search: for k in 0..SLOT_COUNT_U32 {
        let o = slot_numbered(k);
        let positions = positions_in(s, o);
        let part = directory_slots(s, o, positions);
        for i in 0..positions {
            if holds_this(part, i, d) {
                found = true;
                break 'search;
            }
        }
    }
    found
}
