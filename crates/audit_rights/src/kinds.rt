// What is asked of a kind by itself: "names by its first slot an object of its kind that stands there", the ends of its range,
// and the "whole range" of a root.
ghost use Rattle.std.specs.Prelude.{◌≡◌, ◌+◌, ◌≤◌, eqb, ltb, get_or, length};
ghost use Rattle.words.specs.Fields.{slot};
ghost use Rattle.words.specs.Sizes.{entry_size};
ghost use Rattle.words.specs.Tests.{◌&◌};
ghost use Rattle.state.specs.Read.{high_at, low_at, object_at, read, word_at};
ghost use Rattle.rules.specs.WellFormed.{ends_ok, names, whole};
ghost use Rattle.audit_rights.specs.ByWords.{kind_from, memory_ends};

use audit_entries::word_in;
use reading::directories::positions_in;
use reading::notes::tag_at;
use words::capabilities::Kind;
use words::layout::{
    DIRECTORY_KIND, ENDPOINT_KIND, ENDPOINT_TAG, HIGH_AT, LOW_AT, MEMORY_KIND, OBJECT_AT,
    PROCESS_KIND, PROCESS_TAG, TABLE_KIND, TABLE_TAG,
};
use words::numbers::{KernelAddress, Slot};
use words::sizes::{FUNCTION_COUNT, KERNEL_END, KERNEL_START, LAST_FUNCTION, SLOT_SIZE_U32};

// The high ends of the whole ranges, in the width in which they are compared.
const KERNEL_END_U64: u64 = KERNEL_END as u64;

const LAST_FUNCTION_U64: u64 = LAST_FUNCTION as u64;

// The kind of the entry that starts at a byte of a part, by its number, as docs/LAYOUT.md has it. `reading` has one for any part, which tests each read.
pub(crate) fn kind_in(p: &[u8], at: usize, number: u32) -> Kind
    requires { at + entry_size ≤ length p.now }
    ensures { result ≡ kind_from number (slot (get_or p.now (at + object_at) 0)) (word_at p.now (at + low_at)) (word_at p.now (at + high_at)) }
{
    match number {
        TABLE_KIND => Kind::Table(Slot(p[at + OBJECT_AT])),
        DIRECTORY_KIND => Kind::Directory {
            object: Slot(p[at + OBJECT_AT]),
            low: word_in(p, at + LOW_AT),
            high: word_in(p, at + HIGH_AT),
        },
        MEMORY_KIND => Kind::Memory {
            low: KernelAddress(word_in(p, at + LOW_AT)),
            high: KernelAddress(word_in(p, at + HIGH_AT)),
        },
        PROCESS_KIND => Kind::Process(Slot(p[at + OBJECT_AT])),
        ENDPOINT_KIND => Kind::Endpoint(Slot(p[at + OBJECT_AT])),
        _ => Kind::Function {
            low: word_in(p, at + LOW_AT),
            high: word_in(p, at + HIGH_AT),
        },
    }
}

fn both_below(low: u32, high: u32, n: u32) -> bool
    ensures { result ≡ (ltb low n & ltb high n) }
{
    low < n && high < n
}

fn both_are(low: u32, high: u64, first: u32, last: u64) -> bool
    ensures { result ≡ (eqb low first & eqb high last) }
{
    low == first && high == last
}

// Kernel addresses at a slot, of which the high one may be the end.
fn memory_ends(low: KernelAddress, high: KernelAddress) -> bool
    ensures { result ≡ memory_ends low high }
{
    let l = low.0;
    let h = high.0;
    KERNEL_START <= l
        && l < KERNEL_END
        && l % SLOT_SIZE_U32 == 0
        && KERNEL_START <= h
        && h <= KERNEL_END
        && h % SLOT_SIZE_U32 == 0
}

// What has positions is a directory, so its range needs no test of the tag.
pub(crate) fn stands(s: &[u8], kind: Kind) -> bool
    ensures { result ≡ (names (read s.now) kind & ends_ok (read s.now) kind) }
{
    match kind {
        Kind::Table(o) => tag_at(s, o) == TABLE_TAG,
        Kind::Directory { object, low, high } => both_below(low, high, positions_in(s, object)),
        Kind::Memory { low, high } => memory_ends(low, high),
        Kind::Process(o) => tag_at(s, o) == PROCESS_TAG,
        Kind::Endpoint(o) => tag_at(s, o) == ENDPOINT_TAG,
        Kind::Function { low, high } => both_below(low, high, FUNCTION_COUNT),
    }
}

pub(crate) fn is_whole(s: &[u8], kind: Kind) -> bool
    ensures { result ≡ whole (read s.now) kind }
{
    match kind {
        Kind::Table(_) | Kind::Process(_) | Kind::Endpoint(_) => true,
        Kind::Directory { object, low, high } => both_are(
            low,
            high as u64 + 1,
            0,
            positions_in(s, object) as u64,
        ),
        Kind::Memory { low, high } => both_are(low.0, high.0 as u64, KERNEL_START, KERNEL_END_U64),
        Kind::Function { low, high } => both_are(low, high as u64, 0, LAST_FUNCTION_U64),
    }
}
