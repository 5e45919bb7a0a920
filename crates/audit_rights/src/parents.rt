// "a child has its parent's kind and object, flags and range inside the parent's": the parent is compared as its words stand.
ghost use Rattle.std.specs.Prelude.{◌≡◌, ◌+◌, ◌*◌, ◌-◌, ◌≤◌, length};
ghost use Rattle.words.specs.Sizes.{entry_size, state_length};
ghost use Rattle.state.specs.Read.{place_of, read};
ghost use Rattle.state.specs.State.{place_numbered};
ghost use Rattle.rules.specs.WellFormed.{parent_fits};
ghost use Rattle.audit_rights.specs.ByWords.{inside_words};
ghost use Rattle.audit_rights.specs.ButChain.{bare};
ghost use Rattle.audit_rights.specs.Names.{None};

use audit_entries::word_in;
use reading::notes::first_at;
use reading::tables::{entries_in, table_slots};
use words::capabilities::Kind;
use words::kinds::kind_number;
use words::layout::{FLAGS_AT, HIGH_AT, LOW_AT, OBJECT_AT};
use words::numbers::Slot;
use words::sizes::{ENTRY_SIZE, PLACE_COUNT_U32};

// Whether a kind lies inside one of the same number, with these words. An object is compared with the byte that the entry has.
fn inside_words(kind: Kind, object: u8, low: u32, high: u32) -> bool
    ensures { result ≡ inside_words kind object low high }
{
    match kind {
        Kind::Table(o) | Kind::Process(o) | Kind::Endpoint(o) => o.0 == object,
        Kind::Directory {
            object: o,
            low: l,
            high: h,
        } => o.0 == object && low <= l && h <= high,
        Kind::Memory { low: l, high: h } => low <= l.0 && h.0 <= high,
        Kind::Function { low: l, high: h } => low <= l && h <= high,
    }
}

// Whether the entry that starts at a byte of a part fits as parent; part and byte as `place_of` takes them.
fn parent_fits(s: &[u8], at: usize, kind: Kind, flags: u32) -> bool
    requires { at + entry_size ≤ length s.now }
    ensures { result ≡ parent_fits (bare kind flags None) (place_of s.now at) }
{
    let whole = word_in(s, at + FLAGS_AT);
    kind_number(kind) == word_in(s, at)
        && inside_words(
            kind,
            s[at + OBJECT_AT],
            word_in(s, at + LOW_AT),
            word_in(s, at + HIGH_AT),
        )
        && flags & whole == flags
}

// The entry of place number p in the table at a slot.
fn entry_of(p: u32, t: Slot) -> u32
    ensures { result ≡ p - 2 * t.0 }
{
    p.saturating_sub(2 * (t.0 as u32))
}

// Whether the place of number p fits as parent: its table's slots are handed on, and its entry is read in them.
pub(crate) fn parent_ok(s: &[u8], kind: Kind, flags: u32, p: u32) -> bool
    requires { length s.now ≡ state_length }
    ensures { result ≡ parent_fits (bare kind flags None) (place_numbered (read s.now) p) }
{
    if PLACE_COUNT_U32 <= p {
        return false;
    }
    let t = first_at(s, Slot((p / 2) as u8));
    let e = entry_of(p, t);
    let n = entries_in(s, t);
    e < n && parent_fits(table_slots(s, t, n), ENTRY_SIZE * (e as usize), kind, flags)
}
