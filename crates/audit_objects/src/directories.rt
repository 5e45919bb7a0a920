// A directory's own fields: its geometry, and each of its positions, walked in the part of the lent state that its slots are.
ghost use Rattle.std.specs.Prelude.{true, ◌≡◌, ◌+◌, ◌*◌, ◌≤◌, length};
ghost use Rattle.words.specs.Sizes.{header_size, most_size_order, position_size, state_length};
ghost use Rattle.words.specs.Tests.{all_below};
ghost use Rattle.state.specs.Bytes.{directory_tag, tag_of};
ghost use Rattle.state.specs.Read.{position_of, read};
ghost use Rattle.state.specs.State.{obj_at};
ghost use Rattle.rules.specs.WellFormed.{apart, hangs, object_ok, position_ok};

use audit_entries::word_in;
use orders::{is_geometric, is_multiple};
use reading::directories::{directory_slots, positions_in, shape_at};
use reading::notes::tag_at;
use words::capabilities::Geometry;
use words::flag_bits::PAGE_FLAGS_U8;
use words::layout::{CHILD, DIRECTORY_TAG, PAGE, POSITION_FLAGS_AT, POSITION_VALUE_AT};
use words::numbers::Slot;
use words::sizes::{HEADER_SIZE, POSITION_SIZE};

// "a child directory satisfies the construct rule": it is no top, and its size order plus number order is the parent's size order.
fn child_ok(s: &[u8], g: Geometry, o: Slot) -> bool
    ensures { result ≡ hangs g (obj_at (read s.now) o) }
{
    let c = shape_at(s, o);
    tag_at(s, o) == DIRECTORY_TAG && c.size as u64 + c.number as u64 == g.size as u64 && !c.top
}

// The position that starts at a byte of a part. Of an empty one the first byte is all that is read.
fn position_ok(s: &[u8], g: Geometry, p: &[u8], at: usize) -> bool
    requires { (at + position_size ≤ length p.now) × (g.size ≤ most_size_order) }
    ensures { result ≡ position_ok (read s.now) g (position_of p.now at) }
{
    match p[at] {
        PAGE => {
            is_multiple(word_in(p, at + POSITION_VALUE_AT), g.size)
                && p[at + POSITION_FLAGS_AT] <= PAGE_FLAGS_U8
        }
        CHILD => {
            child_ok(s, g, Slot(p[at + POSITION_VALUE_AT]))
                && p[at + POSITION_FLAGS_AT] <= PAGE_FLAGS_U8
        }
        _ => true,
    }
}

// Slots are rounded up, so that a part may hold more than its n positions: it is no list of just these to walk.
fn positions_ok(s: &[u8], g: Geometry, p: &[u8], n: usize) -> bool
    requires { (header_size + position_size * n ≤ length p.now) × (g.size ≤ most_size_order) }
    ensures { result ≡ all_below n (λ i. position_ok (read s.now) g (position_of p.now (header_size + position_size * i))) }
{
    (0..n).all(|i| position_ok(s, g, p, HEADER_SIZE + POSITION_SIZE * i))
}

pub(crate) fn directory_ok(s: &[u8], k: Slot) -> bool
    requires { (length s.now ≡ state_length) × (apart (read s.now) ≡ true) × (tag_of (obj_at (read s.now) k) ≡ directory_tag) }
    ensures { result ≡ object_ok (read s.now) k (obj_at (read s.now) k) }
{
    let g = shape_at(s, k);
    if !is_geometric(g) {
        return false;
    }
    let n = positions_in(s, k);
    positions_ok(s, g, directory_slots(s, k, n), n as usize)
}
