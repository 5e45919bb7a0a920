// A right as `show` prints it: kind and object or range, flags, the frozen mark, and where it comes from.
use reading::notes::first_at;
use rows::{NO_NUMBERS, say_form, say_row};
use std::io::Result;
use words::capabilities::{Capability, Frost, Kind, Origin};
use words::numbers::Slot;
use words::sizes::{PLACE_COUNT_U32, STATE_LENGTH};

// A row of the kinds, by its number in the text of say_kind, and the numbers of its places.
#[derive(Clone, Copy)]
struct Naming {
    row: u32,
    numbers: [u64; 4],
}

fn object_naming(row: u32, o: Slot, flags: u64) -> Naming {
    Naming {
        row,
        numbers: [u64::from(o.0), flags, 0, 0],
    }
}

fn naming_of(kind: Kind, flags: u64) -> Naming {
    match kind {
        Kind::Table(o) => object_naming(0, o, flags),
        Kind::Process(o) => object_naming(1, o, flags),
        Kind::Endpoint(o) => object_naming(2, o, flags),
        Kind::Directory { object, low, high } => Naming {
            row: 3,
            numbers: [u64::from(object.0), flags, u64::from(low), u64::from(high)],
        },
        Kind::Memory { low, high } => Naming {
            row: 4,
            numbers: [u64::from(low.0), u64::from(high.0), flags, 0],
        },
        Kind::Function { low, high } => Naming {
            row: 5,
            numbers: [u64::from(low), u64::from(high), 0, 0],
        },
    }
}

// A function has a range and no flags; a directory's positions stand behind its flags.
fn say_kind(rt: &impl Print, kind: Kind, flags: u32) -> Result<()> {
    let Naming { row, numbers } = naming_of(kind, u64::from(flags));
    say_row(
        rt,
        b"table #, flags &|\
        process #, flags &|\
        endpoint #, flags &|\
        directory #, flags &, positions #..#|\
        memory @..@, flags &|\
        function #..#|",
        row,
        numbers,
    )
}

fn say_frost(rt: &impl Print, frost: Frost) -> Result<()> {
    match frost {
        Frost::Thawed => Ok(()),
        Frost::Frozen(stamp) => say_form(rt, b", frozen at #", [u64::from(stamp), 0, 0, 0]),
    }
}

// The parent's place number is twice its table's first slot and the entry; the slot that it falls into tells the table.
fn say_parent(rt: &impl Print, s: &[u8; STATE_LENGTH], p: u32) -> Result<()> {
    if PLACE_COUNT_U32 <= p {
        return Ok(());
    }
    let t = first_at(s, Slot((p / 2) as u8));
    let first = 2 * u32::from(t.0);
    let entry = p.wrapping_sub(first);
    say_form(rt, b", from #:#", [u64::from(t.0), u64::from(entry), 0, 0])
}

fn say_origin(rt: &impl Print, s: &[u8; STATE_LENGTH], origin: Origin) -> Result<()> {
    match origin {
        None => say_form(rt, b", root", NO_NUMBERS),
        Some(p) => say_parent(rt, s, p),
    }
}

pub(crate) fn say_right(rt: &impl Print, s: &[u8; STATE_LENGTH], c: Capability) -> Result<()> {
    say_kind(rt, c.kind, c.flags)?;
    say_frost(rt, c.frost)?;
    say_origin(rt, s, c.origin)
}
