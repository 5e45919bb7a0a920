// An entry of a table: "a kind, flags, a range where the kind has one, the object, a frozen mark with its stamp". Flags and
// parent may be any word.
ghost use Rattle.std.specs.Prelude.{◌≡◌, ◌+◌, ◌≤◌, length};
ghost use Rattle.audit_bytes.specs.Clean.{frost_clean, kind_clean, object_alone};
ghost use Rattle.audit_bytes.specs.Stands.{place_stands};
ghost use Rattle.words.specs.Sizes.{entry_size};

use crate::zeros::zeros_in;
use audit_entries::word_in;
use words::layout::{
    BLANK, DIRECTORY_KIND, ENDPOINT_KIND, ENTRY_WORDS, FLAGS_AT, FROZEN_AT, FUNCTION_KIND, HIGH_AT,
    LOW_AT, MEMORY_KIND, OBJECT_AT, PROCESS_KIND, STAMP_AT, TABLE_KIND,
};
use words::sizes::SLOT_COUNT_U32;

// The words of an entry behind its kind.
const WORDS_BEHIND: usize = ENTRY_WORDS - 1;

// Kinds without a range.
fn object_alone(low: u32, high: u32, object: u32) -> bool
    ensures { result ≡ object_alone low high object }
{
    low == 0 && high == 0 && object < SLOT_COUNT_U32
}

// The kind is the layout's number (docs/LAYOUT.md): any word may stand there, and a number of no kind is refused.
#[tactic(auto, unfolding(crate::specs::Clean::kind_clean))]
fn kind_clean(kind: u32, low: u32, high: u32, object: u32) -> bool
    ensures { result ≡ kind_clean kind low high object }
{
    match kind {
        TABLE_KIND | PROCESS_KIND | ENDPOINT_KIND => object_alone(low, high, object),
        DIRECTORY_KIND => object < SLOT_COUNT_U32,
        MEMORY_KIND | FUNCTION_KIND => object == 0,
        _ => false,
    }
}

#[tactic(auto, unfolding(crate::specs::Clean::frost_clean))]
fn frost_clean(mark: u32, stamp: u32) -> bool
    ensures { result ≡ frost_clean mark stamp }
{
    matches!((mark, stamp), (0, 0) | (1, _))
}

// A blank entry is eight zero words.
pub(crate) fn place_stands(p: &[u8], at: usize) -> bool
    requires { at + entry_size ≤ length p.now }
    ensures { result ≡ place_stands p.now at }
{
    let kind = word_in(p, at);
    if kind == BLANK {
        return zeros_in(p, at + FLAGS_AT, WORDS_BEHIND);
    }
    let low = word_in(p, at + LOW_AT);
    let high = word_in(p, at + HIGH_AT);
    let object = word_in(p, at + OBJECT_AT);
    kind_clean(kind, low, high, object)
        && frost_clean(word_in(p, at + FROZEN_AT), word_in(p, at + STAMP_AT))
}
