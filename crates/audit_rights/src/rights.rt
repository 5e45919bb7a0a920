// Each right of each table, walked in the part of the lent state that the table's slots are.
ghost use Rattle.std.specs.Prelude.{true, ◌≡◌, ◌+◌, ◌*◌, ◌≤◌, length};
ghost use Rattle.audit_objects.specs.Heads.{AreHeads};
ghost use Rattle.words.specs.Sizes.{entry_size, state_length};
ghost use Rattle.words.specs.Tests.{all_below};
ghost use Rattle.state.specs.Read.{origin_from, place_of, read};
ghost use Rattle.state.specs.State.{entries_in, place_at};
ghost use Rattle.rules.specs.WellFormed.{apart, every_place, right};
ghost use Rattle.audit_rights.specs.ButChain.{bare, descends_but_chain, right_but_chain};

use crate::kinds::{is_whole, kind_in, stands};
use crate::parents::parent_ok;
use audit_entries::word_in;
use reading::tables::{entries_in, table_slots};
use words::capabilities::Kind;
use words::kinds::all_flags;
use words::layout::{BLANK, FLAGS_AT, FUNCTION_KIND, PARENT_AT};
use words::numbers::Slot;
use words::sizes::ENTRY_SIZE;

// Kind, flags and parent are the words of an entry and no `Capability`, which would have a frozen mark too.
// A root has "all its flags and whole range"; the parent's word is 0 for a root, else the parent's place number and 1.
fn descent_ok(s: &[u8], kind: Kind, flags: u32, parent: u32) -> bool
    requires { length s.now ≡ state_length }
    ensures { result ≡ descends_but_chain (read s.now) (bare kind flags (origin_from parent)) (origin_from parent) }
{
    match parent {
        0 => flags == all_flags(kind) && is_whole(s, kind),
        _ => parent_ok(s, kind, flags, parent - 1),
    }
}

fn right_ok(s: &[u8], kind: Kind, flags: u32, parent: u32) -> bool
    requires { length s.now ≡ state_length }
    ensures { result ≡ right_but_chain (read s.now) (bare kind flags (origin_from parent)) }
{
    stands(s, kind) && flags <= all_flags(kind) && descent_ok(s, kind, flags, parent)
}

// The entry that starts at a byte of a part. Of a blank one the first word is all that is read; the kind of a function is the last, and what
// has a greater number is blank too. Part and byte go together as `place_of` of state/specs/Read.antt takes them: a slice of the entry alone
// would have to be told to be the same place.
fn entry_ok(s: &[u8], p: &[u8], at: usize) -> bool
    requires { (length s.now ≡ state_length) × (at + entry_size ≤ length p.now) }
    ensures { result ≡ right (right_but_chain (read s.now)) (place_of p.now at) }
{
    let number = word_in(p, at);
    if number == BLANK || FUNCTION_KIND < number {
        return true;
    }
    let kind = kind_in(p, at, number);
    right_ok(
        s,
        kind,
        word_in(p, at + FLAGS_AT),
        word_in(p, at + PARENT_AT),
    )
}

// Slots are rounded up, so that a part may hold more than its n entries: it is no list of just these to walk.
fn entries_ok(s: &[u8], p: &[u8], n: usize) -> bool
    requires { (length s.now ≡ state_length) × (entry_size * n ≤ length p.now) }
    ensures { result ≡ all_below n (λ e. right (right_but_chain (read s.now)) (place_of p.now (entry_size * e))) }
{
    (0..n).all(|e| entry_ok(s, p, ENTRY_SIZE * e))
}

fn table_ok(s: &[u8], t: Slot) -> bool
    requires { (length s.now ≡ state_length) × (apart (read s.now) ≡ true) }
    ensures { result ≡ all_below (entries_in (read s.now) t) (λ e. right (right_but_chain (read s.now)) (place_at (read s.now) t e)) }
{
    let n = entries_in(s, t);
    n == 0 || entries_ok(s, table_slots(s, t, n), n as usize)
}

// Every table is among the listed slots. State and list are two slices here as in the check's other parts: each walks the one for the other once.
pub fn rights_ok(s: &[u8], heads: &[u8]) -> bool
    requires { (length s.now ≡ state_length) × (apart (read s.now) ≡ true) × AreHeads s.now heads.now }
    ensures { result ≡ every_place (read s.now) (right (right_but_chain (read s.now))) }
{
    heads.iter().all(|&k| table_ok(s, Slot(k)))
}
