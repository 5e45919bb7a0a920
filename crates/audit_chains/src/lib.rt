// "its parent chain reaches a root": "A 512-entry mark array, one mark per possible table entry, records entries already shown
// to reach a root." Each right's chain is walked up to a mark or a root, and then the places on the way are marked, so that no
// place is passed twice.
#![tactic(auto)]

ghost use Rattle.std.specs.Prelude.{IfNone, IfSome, ◌≡◌, true, ℕ, ◌+◌, ◌*◌, ◌<◌, ◌≤◌, length};
ghost use Rattle.audit_objects.specs.Heads.{AreHeads};
ghost use Rattle.words.specs.Sizes.{entry_size, place_count};
ghost use Rattle.words.specs.Tests.{all_below};
ghost use Rattle.state.specs.Read.{parent_at, place_of, read, word_at};
ghost use Rattle.state.specs.State.{place_at, entries_in, place_numbered};
ghost use Rattle.rules.specs.WellFormed.{every_place, reaches, right};
ghost use Rattle.audit_chains.specs.Chains.{Ready, Shown, chained, place_chained, parent_stands, holds, codes};

use audit_entries::word_in;
use reading::bytes::slots_from;
use reading::tables::{entries_in, table_slots};
use words::layout::{BLANK, FUNCTION_KIND, PARENT_AT};
use words::numbers::Slot;
use words::sizes::{ENTRY_SIZE, PLACE_COUNT};

// The number of the place that the entry at a byte of a part names as its parent. A root names none.
fn parent_in(p: &[u8], at: usize) -> Option<usize>
    requires { at + entry_size ≤ length p.now }
    ensures root { IfNone result (word_at p.now (at + parent_at) ≡ 0) }
    ensures child { IfSome result (λ x. word_at p.now (at + parent_at) ≡ x + 1) }
{
    match word_in(p, at + PARENT_AT) {
        0 => None,
        w => Some(w as usize - 1),
    }
}

// The number of the parent of the right in the place of number x, which is one of the two in slot x / 2: "hands on just its slots, a part
// from the middle of the lent state".
fn parent_of(s: &[u8], x: usize) -> Option<usize>
    requires { Ready s.now × (holds (place_numbered (read s.now) x) ≡ true) }
    ensures root { IfNone result (codes (read s.now) x ≡ 1) }
    ensures child { IfSome result (λ p. codes (read s.now) x ≡ p + 2) }
{
    parent_in(slots_from(s, Slot((x / 2) as u8), 1), ENTRY_SIZE * (x % 2))
}

// The state that is walked, and a mark on each of its places that is known to reach a root.
#[derive(Drop)]
struct MarkedState<'a> {
    s: &'a [u8],
    marks: [u8; PLACE_COUNT],
    ghost ready: { Ready s.now },
    ghost shown: { Shown (read s.now) marks },
}

impl MarkedState<'_> {
    // Whether the chain from the place of number p comes to a mark or to a root; one that has not in 512 steps goes in a circle.
    fn reaches_root(&self, p: usize) -> bool
        requires { holds (place_numbered (read self.now.s.now) p) ≡ true }
        ensures { result ≡ reaches (place_numbered (read self.now.s.now)) place_count p }
    {
        let mut x = p;
        for _ in 0..PLACE_COUNT {
            if self.marks[x] != 0 {
                return true;
            }
            let Some(parent) = parent_of(self.s, x) else {
                return true;
            };
            x = parent;
        }
        false
    }

    // Marks the places on the way from the place of number p, which reaches a root.
    fn mark_way(&mut self, p: usize)
        requires { reaches (place_numbered (read self.old.s.now)) place_count p ≡ true }
        ensures { self.new.s ≡ self.old.s }
    {
        let mut x = p;
        while self.marks[x] == 0 {
            self.marks[x] = 1;
            let Some(parent) = parent_of(self.s, x) else {
                return;
            };
            x = parent;
        }
    }

    fn parent_reaches(&mut self, p: usize) -> bool
        requires { holds (place_numbered (read self.old.s.now) p) ≡ true }
        ensures told { result ≡ reaches (place_numbered (read self.old.s.now)) place_count p }
        ensures state { self.new.s ≡ self.old.s }
    {
        if !self.reaches_root(p) {
            return false;
        }
        self.mark_way(p);
        true
    }

    // The entry at a byte of a table's part. A root and a blank have no parent to walk from; the kind of a function is the last, and what
    // has a greater number is blank too.
    fn entry_chained(&mut self, part: &[u8], at: usize) -> bool
        requires { (at + entry_size ≤ length part.now) × (parent_stands (read self.old.s.now) (place_of part.now at) ≡ true) }
        ensures told { result ≡ place_chained (read self.old.s.now) (place_of part.now at) }
        ensures state { self.new.s ≡ self.old.s }
    {
        let Some(parent) = parent_in(part, at) else {
            return true;
        };
        let kind = word_in(part, at);
        if kind == BLANK || FUNCTION_KIND < kind {
            return true;
        }
        self.parent_reaches(parent)
    }

    // The n entries of a table, in its own part of the state, which may hold more: slots are rounded up.
    fn table_chained(&mut self, part: &[u8], n: u32) -> bool
        requires { (n ≤ place_count) × (entry_size * n ≤ length part.now) × ((e : ℕ) → e < n → parent_stands (read self.old.s.now) (place_of part.now (entry_size * e)) ≡ true) }
        ensures told { result ≡ all_below n (λ e. place_chained (read self.old.s.now) (place_of part.now (entry_size * e))) }
        ensures state { self.new.s ≡ self.old.s }
    {
        for e in 0..n as usize {
            if !self.entry_chained(part, ENTRY_SIZE * e) {
                return false;
            }
        }
        true
    }

    fn slot_chained(&mut self, t: Slot) -> bool
        ensures told { result ≡ all_below (entries_in (read self.old.s.now) t) (λ e. place_chained (read self.old.s.now) (place_at (read self.old.s.now) t e)) }
        ensures state { self.new.s ≡ self.old.s }
    {
        let n = entries_in(self.s, t);
        n == 0 || self.table_chained(table_slots(self.s, t, n), n)
    }
}

// Every table is among the listed slots.
pub fn chains_ok(s: &[u8], heads: &[u8]) -> bool
    requires { Ready s.now × AreHeads s.now heads.now }
    ensures { result ≡ every_place (read s.now) (right (λ c. chained (read s.now) c.origin)) }
{
    let mut marked = MarkedState {
        s,
        marks: [0; PLACE_COUNT],
    };
    for &k in heads {
        if !marked.slot_chained(Slot(k)) {
            return false;
        }
    }
    true
}
