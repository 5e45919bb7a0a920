// An entry of a table, eight words: kind, flags, low, high, object, frozen mark, stamp, parent.
ghost use Rattle.std.specs.Prelude.{◌≡◌, ◌+◌, ◌*◌, ◌≤◌, length};
ghost use Rattle.words.specs.Sizes.{slot_size, entry_size};
ghost use Rattle.state.specs.State.{splice};
ghost use Rattle.state.specs.Bytes.{le32, words_bytes, frozen_no, parent_no, right_words, place_bytes};

use crate::bytes::store_words;
use words::capabilities::{Capability, Frost, Origin, Place, stamp_of};
use words::kinds::{high_of, kind_number, low_of, object_of};
use words::layout::ENTRY_WORDS;
use words::numbers::Slot;
use words::sizes::{ENTRY_SIZE, SLOT_SIZE};

fn frozen_number(f: Frost) -> u32
    ensures { result ≡ frozen_no f }
{
    match f {
        Frost::Thawed => 0,
        Frost::Frozen(_) => 1,
    }
}

// 0 for a root, n + 1 under the place of number n: the same four bytes, also where n + 1 takes 33 bits.
fn parent_number(o: Origin) -> u32
    ensures { le32 result ≡ le32 (parent_no o) }
{
    o.map_or(0, |n| n.wrapping_add(1))
}

fn right_words(c: Capability) -> [u32; ENTRY_WORDS]
    ensures { words_bytes result ≡ words_bytes (right_words c) }
{
    let object = object_of(c.kind);
    [
        kind_number(c.kind),
        c.flags,
        low_of(c.kind),
        high_of(c.kind),
        object.0 as u32,
        frozen_number(c.frost),
        stamp_of(c.frost),
        parent_number(c.origin),
    ]
}

fn place_words(p: Place) -> [u32; ENTRY_WORDS]
    ensures { words_bytes result ≡ place_bytes p }
{
    match p {
        None => [0; ENTRY_WORDS],
        Some(c) => right_words(c),
    }
}

// Entry e of the table whose first slot is t, apart and in no `Spot`, as the layout's definitions have them.
pub fn store_place(s: &mut [u8], t: Slot, e: u32, p: Place)
    requires { slot_size * t.0 + entry_size * e + entry_size ≤ length s.old }
    ensures { s.new ≡ splice (slot_size * t.0 + entry_size * e) (place_bytes p) s.old }
{
    let at = SLOT_SIZE * (t.0 as usize) + ENTRY_SIZE * (e as usize);
    store_words(s, at, &place_words(p)[..]);
}
