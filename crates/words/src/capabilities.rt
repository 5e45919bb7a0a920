// What a table and a directory hold. "A capability has a kind, flags, a range where the kind has one, the object,
// a frozen mark with its stamp, and a parent, unless it is a root."
ghost use Rattle.std.specs.Prelude.{◌≡◌};
ghost use Rattle.words.specs.Rights.{is_thawed, place_thawed, stamp_of};

use crate::numbers::{KernelAddress, Slot};

// A kind, with its range or object as data. A directory's and a function's high end is included, a memory's is not.
#[derive(Clone, Copy)]
pub enum Kind {
    Table(Slot),
    Directory {
        object: Slot,
        low: u32,
        high: u32,
    },
    Memory {
        low: KernelAddress,
        high: KernelAddress,
    },
    Process(Slot),
    Endpoint(Slot),
    Function {
        low: u32,
        high: u32,
    },
}

// The frozen mark, with its stamp. No Option, though it has the shape: a mark may settle (request #104 of document 02), and an Option has no
// third case.
#[derive(Clone, Copy)]
pub enum Frost {
    Thawed,
    Frozen(u32),
}

// "a parent, unless it is a root": the parent's place by its number, 2 * first slot of the table + entry; a root has none.
pub type Origin = Option<u32>;

#[derive(Clone, Copy)]
pub struct Capability {
    pub kind: Kind,
    pub flags: u32,
    pub frost: Frost,
    pub origin: Origin,
}

// An entry of a table: blank, or what it holds.
pub type Place = Option<Capability>;

// An entry of a directory.
#[derive(Clone, Copy)]
pub enum Position {
    Empty,
    Page { frame: u32, flags: u32 },
    Child { object: Slot, flags: u32 },
}

// The shape of a directory: orders of its page size and of its number of positions, the top mark, the start address.
#[derive(Clone, Copy)]
pub struct Geometry {
    pub size: u32,
    pub number: u32,
    pub top: bool,
    pub start: u32,
}

// What a right gives to the stage that uses it: a directory and the positions that the right ranges over; the addresses of a
// memory right, from low to below high; the numbers of a function right.
#[derive(Clone, Copy)]
pub struct Span {
    pub object: Slot,
    pub low: u32,
    pub high: u32,
}

#[derive(Clone, Copy)]
pub struct Stretch {
    pub low: KernelAddress,
    pub high: KernelAddress,
}

#[derive(Clone, Copy)]
pub struct FunctionRange {
    pub low: u32,
    pub high: u32,
}

// What a position that holds a page gives.
#[derive(Clone, Copy)]
pub struct Frame {
    pub frame: u32,
    pub flags: u32,
}

pub fn is_thawed(f: Frost) -> bool
    ensures { result ≡ is_thawed f }
{
    matches!(f, Frost::Thawed)
}

// The stamp of the frozen mark; 0 where there is none.
pub fn stamp_of(f: Frost) -> u32
    ensures { result ≡ stamp_of f }
{
    match f {
        Frost::Thawed => 0,
        Frost::Frozen(stamp) => stamp,
    }
}

// A blank place is not frozen: the mark belongs to the capability.
pub fn place_thawed(p: Place) -> bool
    ensures { result ≡ place_thawed p }
{
    match p {
        None => true,
        Some(c) => is_thawed(c.frost),
    }
}
