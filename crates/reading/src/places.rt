// An entry of a table from its 32 bytes: "a kind, flags, a range where the kind has one, the object, a frozen mark with its
// stamp, and a parent, unless it is a root".
ghost use Rattle.std.specs.Prelude.{◌≡◌, ◌≤◌};
ghost use Rattle.state.specs.Read.{frost_from, origin_from, place_of};
ghost use Rattle.reading.specs.Kinds.{kind_of};

use crate::bytes::{byte_at, word_at};
use words::capabilities::{Capability, Frost, Kind, Origin, Place};
use words::layout::{
    BLANK, DIRECTORY_KIND, ENDPOINT_KIND, FLAGS_AT, FROZEN_AT, FUNCTION_KIND, HIGH_AT, LOW_AT,
    MEMORY_KIND, OBJECT_AT, PARENT_AT, PROCESS_KIND, STAMP_AT, TABLE_KIND,
};
use words::numbers::{KernelAddress, Slot};

#[tactic(auto, unfolding(state::specs::Read::frost_from))]
fn frost_from(mark: u32, stamp: u32) -> Frost
    ensures { result ≡ frost_from mark stamp }
{
    match mark {
        0 => Frost::Thawed,
        _ => Frost::Frozen(stamp),
    }
}

// 0 for a root, n + 1 under the place of number n.
#[tactic(auto, unfolding(state::specs::Read::origin_from))]
fn origin_from(w: u32) -> Origin
    ensures { result ≡ origin_from w }
{
    w.checked_sub(1)
}

// The kind of the entry that starts at a byte of a part; none where the entry is blank. Most are: their first word is all that is read.
// The kinds are numbers here: an entry has them as docs/LAYOUT.md says.
#[tactic(auto, unfolding(crate::specs::Kinds::kind_of, crate::specs::Kinds::kind_from))]
fn kind_of(p: &[u8], at: usize) -> Option<Kind>
    requires { at ≤ 65000 }
    ensures { result ≡ kind_of p.now at }
{
    let tag = word_at(p, at);
    if tag == BLANK {
        return None;
    }
    let object = Slot(byte_at(p, at + OBJECT_AT));
    let low = word_at(p, at + LOW_AT);
    let high = word_at(p, at + HIGH_AT);
    match tag {
        TABLE_KIND => Some(Kind::Table(object)),
        DIRECTORY_KIND => Some(Kind::Directory { object, low, high }),
        MEMORY_KIND => Some(Kind::Memory {
            low: KernelAddress(low),
            high: KernelAddress(high),
        }),
        PROCESS_KIND => Some(Kind::Process(object)),
        ENDPOINT_KIND => Some(Kind::Endpoint(object)),
        FUNCTION_KIND => Some(Kind::Function { low, high }),
        _ => None,
    }
}

// The entry that starts at a byte of a part. The bound on the byte stands at three readers: it keeps a sum from wrapping, and is no type.
pub fn place_of(p: &[u8], at: usize) -> Place
    requires { at ≤ 65000 }
    ensures { result ≡ place_of p.now at }
{
    let kind = kind_of(p, at)?;
    Some(Capability {
        kind,
        flags: word_at(p, at + FLAGS_AT),
        frost: frost_from(word_at(p, at + FROZEN_AT), word_at(p, at + STAMP_AT)),
        origin: origin_from(word_at(p, at + PARENT_AT)),
    })
}
