// The state, a fact a line: the clock, each object by rising slot, and under tables and directories what they hold. Everything is
// read by the readers that the judges use.
#![tactic(auto)]

mod rights;

use crate::rights::say_right;
use reading::clock::clock;
use reading::directories::{position_at, positions_in, shape_at};
use reading::endpoints::{boot_mark_at, count_at};
use reading::notes::tag_at;
use reading::processes::{directory_named, table_named};
use reading::tables::{entries_in, place_at};
use rows::{NO_NUMBERS, say_form, say_row};
use std::io::Result;
use words::capabilities::Position;
use words::layout::{DIRECTORY_TAG, PROCESS_TAG, TABLE_TAG};
use words::numbers::Slot;
use words::sizes::{SLOT_COUNT, STATE_LENGTH};

fn say_entry(rt: &impl Print, s: &[u8; STATE_LENGTH], t: Slot, e: u32) -> Result<()> {
    let Some(c) = place_at(s, t, e) else {
        return Ok(());
    };
    say_form(rt, b"  #: ", [u64::from(e), 0, 0, 0])?;
    say_right(rt, s, c)?;
    say_form(rt, b"\n", NO_NUMBERS)
}

fn say_table(rt: &impl Print, s: &[u8; STATE_LENGTH], t: Slot) -> Result<()> {
    let n = entries_in(s, t);
    say_form(rt, b"table of #\n", [u64::from(n), 0, 0, 0])?;
    for e in 0..n {
        say_entry(rt, s, t, e)?;
    }
    Ok(())
}

fn say_position(rt: &impl Print, s: &[u8; STATE_LENGTH], d: Slot, i: u32) -> Result<()> {
    match position_at(s, d, i) {
        Position::Empty => Ok(()),
        Position::Page { frame, flags } => say_form(
            rt,
            b"  #: page @, flags &\n",
            [u64::from(i), u64::from(frame), u64::from(flags), 0],
        ),
        Position::Child { object, flags } => say_form(
            rt,
            b"  #: child #, flags &\n",
            [u64::from(i), u64::from(object.0), u64::from(flags), 0],
        ),
    }
}

fn say_directory(rt: &impl Print, s: &[u8; STATE_LENGTH], d: Slot) -> Result<()> {
    let g = shape_at(s, d);
    say_row(
        rt,
        b"directory, start @, size order #, number order #\n\
        directory, top, start @, size order #, number order #\n",
        u32::from(g.top),
        [
            u64::from(g.start),
            u64::from(g.size),
            u64::from(g.number),
            0,
        ],
    )?;
    for i in 0..positions_in(s, d) {
        say_position(rt, s, d, i)?;
    }
    Ok(())
}

fn say_process(rt: &impl Print, s: &[u8; STATE_LENGTH], p: Slot) -> Result<()> {
    let t = table_named(s, p);
    let d = directory_named(s, p);
    say_form(
        rt,
        b"process, table #, directory #\n",
        [u64::from(t.0), u64::from(d.0), 0, 0],
    )
}

fn say_endpoint(rt: &impl Print, s: &[u8; STATE_LENGTH], e: Slot) -> Result<()> {
    let n = count_at(s, e);
    say_row(
        rt,
        b"endpoint, count #\n\
        endpoint, count #, boot\n",
        u32::from(boot_mark_at(s, e)),
        [u64::from(n.0), 0, 0, 0],
    )
}

// What stands in a slot by its first one; a free slot and a later one of a larger object have no line. Tags are numbers, as bytes of the
// state have them (words::layout).
fn say_slot(rt: &impl Print, s: &[u8; STATE_LENGTH], k: u8) -> Result<()> {
    let tag = tag_at(s, Slot(k));
    if tag < TABLE_TAG {
        return Ok(());
    }
    say_form(rt, b"slot #: ", [u64::from(k), 0, 0, 0])?;
    match tag {
        TABLE_TAG => say_table(rt, s, Slot(k)),
        DIRECTORY_TAG => say_directory(rt, s, Slot(k)),
        PROCESS_TAG => say_process(rt, s, Slot(k)),
        _ => say_endpoint(rt, s, Slot(k)),
    }
}

const LAST_SLOT: u8 = (SLOT_COUNT - 1) as u8;

pub fn show(rt: &impl Print, s: &[u8; STATE_LENGTH]) -> Result<()> {
    say_form(rt, b"clock #\n", [u64::from(clock(s)), 0, 0, 0])?;
    for k in 0..=LAST_SLOT {
        say_slot(rt, s, k)?;
    }
    Ok(())
}
