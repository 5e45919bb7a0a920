// The parts of a kind as plain numbers, 0 where the kind has none, as `object_of`, `low_of` and `high_of` of the rules: what a table entry
// stores of it.
ghost use Rattle.std.specs.Prelude.{◌≡◌};
ghost use Rattle.words.specs.Rights.{kind_no, object_of, low_of, high_of, all_flags, root_right};

use crate::capabilities::{Capability, Frost, Kind};
use crate::flag_bits::{
    DIRECTORY_FLAGS, ENDPOINT_FLAGS, FUNCTION_FLAGS, MEMORY_FLAGS, PROCESS_FLAGS, TABLE_FLAGS,
};
use crate::layout::{
    DIRECTORY_KIND, ENDPOINT_KIND, FUNCTION_KIND, MEMORY_KIND, PROCESS_KIND, TABLE_KIND,
};
use crate::numbers::Slot;

pub fn kind_number(k: Kind) -> u32
    ensures { result ≡ kind_no k }
{
    match k {
        Kind::Table(_) => TABLE_KIND,
        Kind::Directory { .. } => DIRECTORY_KIND,
        Kind::Memory { .. } => MEMORY_KIND,
        Kind::Process(_) => PROCESS_KIND,
        Kind::Endpoint(_) => ENDPOINT_KIND,
        Kind::Function { .. } => FUNCTION_KIND,
    }
}

pub fn object_of(k: Kind) -> Slot
    ensures { result ≡ object_of k }
{
    match k {
        Kind::Table(object)
        | Kind::Directory { object, .. }
        | Kind::Process(object)
        | Kind::Endpoint(object) => object,
        Kind::Memory { .. } | Kind::Function { .. } => Slot(0),
    }
}

pub fn low_of(k: Kind) -> u32
    ensures { result ≡ low_of k }
{
    match k {
        Kind::Directory { low, .. } | Kind::Function { low, .. } => low,
        Kind::Memory { low, .. } => low.0,
        Kind::Table(_) | Kind::Process(_) | Kind::Endpoint(_) => 0,
    }
}

pub fn high_of(k: Kind) -> u32
    ensures { result ≡ high_of k }
{
    match k {
        Kind::Directory { high, .. } | Kind::Function { high, .. } => high,
        Kind::Memory { high, .. } => high.0,
        Kind::Table(_) | Kind::Process(_) | Kind::Endpoint(_) => 0,
    }
}

// "with every flag of its kind"
pub fn all_flags(k: Kind) -> u32
    ensures { result ≡ all_flags k }
{
    match k {
        Kind::Table(_) => TABLE_FLAGS,
        Kind::Directory { .. } => DIRECTORY_FLAGS,
        Kind::Memory { .. } => MEMORY_FLAGS,
        Kind::Process(_) => PROCESS_FLAGS,
        Kind::Endpoint(_) => ENDPOINT_FLAGS,
        Kind::Function { .. } => FUNCTION_FLAGS,
    }
}

// "Creation makes the one root of an object, with every flag of its kind"
pub fn root_right(kind: Kind) -> Capability
    ensures { result ≡ root_right kind }
{
    Capability {
        kind,
        flags: all_flags(kind),
        frost: Frost::Thawed,
        origin: None,
    }
}
