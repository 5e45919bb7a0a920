// Each object by what its note says that it is. Free slots, later slots and endpoints have no field that could be out of range.
ghost use Rattle.std.specs.Prelude.{true, ◌≡◌, length};
ghost use Rattle.audit_objects.specs.Heads.{AreHeads};
ghost use Rattle.words.specs.Sizes.{state_length};
ghost use Rattle.state.specs.Bytes.{process_tag, table_tag, tag_of};
ghost use Rattle.state.specs.Read.{read};
ghost use Rattle.state.specs.State.{obj_at};
ghost use Rattle.rules.specs.WellFormed.{apart, every_object, object_ok};

use crate::directories::directory_ok;
use reading::directories::shape_at;
use reading::notes::tag_at;
use reading::processes::{directory_named, table_named};
use reading::tables::entries_in;
use words::layout::{DIRECTORY_TAG, PROCESS_TAG, TABLE_TAG};
use words::numbers::Slot;
use words::sizes::MOST_ENTRIES;

// "table of 1..64 entries"
fn table_ok(s: &[u8], k: Slot) -> bool
    requires { tag_of (obj_at (read s.now) k) ≡ table_tag }
    ensures { result ≡ object_ok (read s.now) k (obj_at (read s.now) k) }
{
    let n = entries_in(s, k);
    1 <= n && n <= MOST_ENTRIES
}

// "a process names a live table and a live top directory"
fn process_ok(s: &[u8], k: Slot) -> bool
    requires { tag_of (obj_at (read s.now) k) ≡ process_tag }
    ensures { result ≡ object_ok (read s.now) k (obj_at (read s.now) k) }
{
    tag_at(s, table_named(s, k)) == TABLE_TAG && shape_at(s, directory_named(s, k)).top
}

fn object_ok(s: &[u8], k: Slot) -> bool
    requires { (length s.now ≡ state_length) × (apart (read s.now) ≡ true) }
    ensures { result ≡ object_ok (read s.now) k (obj_at (read s.now) k) }
{
    match tag_at(s, k) {
        TABLE_TAG => table_ok(s, k),
        DIRECTORY_TAG => directory_ok(s, k),
        PROCESS_TAG => process_ok(s, k),
        _ => true,
    }
}

// What is not among the listed slots is free or goes on. State and list are two slices, as in rights.rt of `audit_rights`.
pub fn objects_ok(s: &[u8], heads: &[u8]) -> bool
    requires { (length s.now ≡ state_length) × (apart (read s.now) ≡ true) × AreHeads s.now heads.now }
    ensures { result ≡ every_object (read s.now) (object_ok (read s.now)) }
{
    heads.iter().all(|&k| object_ok(s, Slot(k)))
}
