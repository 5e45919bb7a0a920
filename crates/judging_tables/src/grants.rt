// What a delegation gives: "new flags are non-empty and a subset, the range non-empty and inside, else −5".
ghost use Rattle.std.specs.Prelude.{◌≡◌};
ghost use Rattle.words.specs.Rights.{inside, some_flag, some_range, subset};
ghost use Rattle.rules.specs.Calls.{asked_flags, asked_kind, granted};

use words::capabilities::{Capability, Frost, Kind};
use words::fields::{Words, d0, d1};
use words::flag_bits::FUNCTION_FLAGS;
use words::grants::{Packed, unpack_grant};
use words::kinds::{high_of, kind_number, low_of, object_of};
use words::refusals::Refusal;

// A directory's flags in bits 7..0, "then lowest position in bits 19..8, highest in 31..20": where the positions begin, and how many
// a field of twelve bits tells apart.
const LOW_UNIT: u32 = 0x100;

const POSITIONS_TOLD: u32 = 0x1000;

const HIGH_UNIT: u32 = LOW_UNIT * POSITIONS_TOLD;

// The kind that the words ask for, of a right of the kind: its object, and the range that the words tell.
fn asked_kind(k: Kind, w: Words) -> Kind
    ensures { result ≡ asked_kind k w }
{
    match k {
        Kind::Directory { object, .. } => Kind::Directory {
            object,
            low: w.p3 / LOW_UNIT % POSITIONS_TOLD,
            high: w.p3 / HIGH_UNIT,
        },
        Kind::Memory { .. } => {
            let g = unpack_grant(Packed { nc: w.nc, p3: w.p3 });
            Kind::Memory {
                low: g.lower,
                high: g.upper,
            }
        }
        Kind::Function { .. } => Kind::Function {
            low: d0(w.p3),
            high: d1(w.p3),
        },
        Kind::Table(_) | Kind::Process(_) | Kind::Endpoint(_) => k,
    }
}

// And the flags.
fn asked_flags(k: Kind, w: Words) -> u32
    ensures { result ≡ asked_flags k w }
{
    match k {
        Kind::Table(_) | Kind::Process(_) | Kind::Endpoint(_) => w.p3,
        Kind::Directory { .. } => w.p3 % LOW_UNIT,
        Kind::Memory { .. } => unpack_grant(Packed { nc: w.nc, p3: w.p3 }).flags,
        Kind::Function { .. } => FUNCTION_FLAGS,
    }
}

// "a function has none"; a right of any other kind needs one.
fn some_flag(k: Kind, flags: u32) -> bool
    ensures { result ≡ some_flag k flags }
{
    match k {
        Kind::Table(_)
        | Kind::Directory { .. }
        | Kind::Memory { .. }
        | Kind::Process(_)
        | Kind::Endpoint(_) => 1 <= flags,
        Kind::Function { .. } => true,
    }
}

fn is_subset(a: u32, b: u32) -> bool
    ensures { result ≡ subset a b }
{
    a & b == a
}

// "both included" for a directory and a function, "the upper is excluded" for memory.
#[tactic(auto, unfolding(words::specs::Rights::some_range))]
fn some_range(k: Kind) -> bool
    ensures { result ≡ some_range k }
{
    match k {
        Kind::Directory { low, high, .. } | Kind::Function { low, high } => low <= high,
        Kind::Memory { low, high } => low.0 < high.0,
        Kind::Table(_) | Kind::Process(_) | Kind::Endpoint(_) => true,
    }
}

// "its parent's kind and object, .. range inside the parent's"
fn is_inside(k: Kind, p: Kind) -> bool
    ensures { result ≡ inside k p }
{
    if kind_number(k) != kind_number(p) {
        return false;
    }
    if object_of(k) != object_of(p) {
        return false;
    }
    if low_of(k) < low_of(p) {
        return false;
    }
    high_of(k) <= high_of(p)
}

// The right that the words ask for of the right c, as a child of the place of number p.
pub(crate) fn grant_of(c: Capability, p: u32, w: Words) -> Result<Capability, Refusal>
    ensures { result ≡ granted c p w }
{
    let kind = asked_kind(c.kind, w);
    let flags = asked_flags(c.kind, w);
    if !some_flag(c.kind, flags) {
        return Err(Refusal::CapFlag);
    }
    if !is_subset(flags, c.flags) {
        return Err(Refusal::CapFlag);
    }
    if !some_range(kind) {
        return Err(Refusal::CapFlag);
    }
    if !is_inside(kind, c.kind) {
        return Err(Refusal::CapFlag);
    }
    Ok(Capability {
        kind,
        flags,
        frost: Frost::Thawed,
        origin: Some(p),
    })
}
