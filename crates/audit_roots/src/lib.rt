// "each object, and the kinds memory and function, has exactly one root": the roots are counted, under the object's first slot
// or under the kind, and each count must be 1.
#![tactic(auto)]

ghost use Rattle.std.specs.Prelude.{IfSome, ◌≡◌, ◌+◌, ◌*◌, ◌<◌, ◌≤◌, length};
ghost use Rattle.audit_objects.specs.Heads.{AreHeads};
ghost use Rattle.words.specs.Sizes.{slot_count, state_length, entry_size, place_count};
ghost use Rattle.state.specs.Layout.{Laid};
ghost use Rattle.state.specs.Read.{read, place_of};
ghost use Rattle.state.specs.State.{obj_at, place_at, entries_in};
ghost use Rattle.rules.specs.WellFormed.{one, one_root, every_object, rooted};
ghost use Rattle.audit_roots.specs.Roots.{counted_under, keys, root_key, roots_among, roots_below, Counts, UpTo, most_roots, more, Ready};

use audit_entries::word_in;
use reading::notes::tag_at;
use reading::tables::{entries_in, table_slots};
use words::layout::{
    DIRECTORY_KIND, ENDPOINT_KIND, FUNCTION_KIND, MEMORY_KIND, OBJECT_AT, PARENT_AT, PROCESS_KIND,
    TABLE_KIND, TABLE_TAG,
};
use words::numbers::Slot;
use words::sizes::{ENTRY_SIZE, SLOT_COUNT};

// The number under which a root is counted: the first slot of its object, and behind the slots one for memory and one for function, which
// name no object.
const MEMORY_KEY: usize = SLOT_COUNT;

const FUNCTION_KEY: usize = MEMORY_KEY + 1;

const KEY_COUNT: usize = FUNCTION_KEY + 1;

// The number under which the entry at a byte of a table's part is counted, if it is a root.
fn root_key(p: &[u8], at: usize) -> Option<usize>
    requires { at + entry_size ≤ length p.now }
    ensures key { result ≡ root_key (place_of p.now at) }
    ensures one_of_them { IfSome result (λ k. k < keys) }
{
    if word_in(p, at + PARENT_AT) != 0 {
        return None;
    }
    match word_in(p, at) {
        MEMORY_KIND => Some(MEMORY_KEY),
        FUNCTION_KIND => Some(FUNCTION_KEY),
        TABLE_KIND | DIRECTORY_KIND | PROCESS_KIND | ENDPOINT_KIND => {
            Some(p[at + OBJECT_AT] as usize)
        }
        _ => None,
    }
}

// Each of these functions says another thing of the counts, so that no type could say it for all.
fn count_entry(p: &[u8], at: usize, counts: &mut [u32; KEY_COUNT])
    requires { (at + entry_size ≤ length p.now) × UpTo (most_roots + place_count) counts.old }
    ensures { Counts counts.new (more counts.old (λ k. one (counted_under (root_key (place_of p.now at)) k))) }
{
    if let Some(k) = root_key(p, at) {
        counts[k] += 1;
    }
}

// The roots among the n entries of a table, in its own part of the state, which may hold more: slots are rounded up.
fn count_table(p: &[u8], n: u32, counts: &mut [u32; KEY_COUNT])
    requires { (entry_size * n ≤ length p.now) × (n ≤ place_count) × UpTo most_roots counts.old }
    ensures { Counts counts.new (more counts.old (roots_among (λ e. place_of p.now (entry_size * e)) n)) }
{
    for e in 0..n as usize {
        count_entry(p, ENTRY_SIZE * e, counts);
    }
}

fn count_slot(s: &[u8], t: Slot, counts: &mut [u32; KEY_COUNT])
    requires { (length s.now ≡ state_length) × Laid (read s.now) × UpTo most_roots counts.old }
    ensures { Counts counts.new (more counts.old (roots_among (place_at (read s.now) t) (entries_in (read s.now) t))) }
{
    let n = entries_in(s, t);
    if n != 0 {
        count_table(table_slots(s, t, n), n, counts);
    }
}

// The roots in every table: each is among the listed slots. State and list are two slices, as in rights.rt of `audit_rights`.
fn count_all(s: &[u8], heads: &[u8], counts: &mut [u32; KEY_COUNT])
    requires { (length s.now ≡ state_length) × Laid (read s.now) × AreHeads s.now heads.now × Counts counts.old (roots_below (read s.now) 0) }
    ensures { Counts counts.new (roots_below (read s.now) slot_count) }
{
    for &k in heads {
        count_slot(s, Slot(k), counts);
    }
}

// What stands in a slot has one root; a free slot and a later slot of a larger object, whose tags come before a table's, have none.
fn one_root(s: &[u8], counts: &[u32; KEY_COUNT], k: Slot) -> bool
    requires { Ready s.now × Counts counts.now (roots_below (read s.now) slot_count) }
    ensures { result ≡ one_root (read s.now) k (obj_at (read s.now) k) }
{
    tag_at(s, k) < TABLE_TAG || counts[k.0 as usize] == 1
}

fn objects_rooted(s: &[u8], heads: &[u8], counts: &[u32; KEY_COUNT]) -> bool
    requires { Ready s.now × AreHeads s.now heads.now × Counts counts.now (roots_below (read s.now) slot_count) }
    ensures { result ≡ every_object (read s.now) (one_root (read s.now)) }
{
    heads.iter().all(|&k| one_root(s, counts, Slot(k)))
}

pub fn roots_ok(s: &[u8], heads: &[u8]) -> bool
    requires { Ready s.now × AreHeads s.now heads.now }
    ensures { result ≡ rooted (read s.now) }
{
    let mut counts = [0u32; KEY_COUNT];
    count_all(s, heads, &mut counts);
    objects_rooted(s, heads, &counts) && counts[MEMORY_KEY] == 1 && counts[FUNCTION_KEY] == 1
}
