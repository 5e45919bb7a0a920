// A first look: boots a buffer, ticks, checks it, damages one byte at a time and checks again. Each line is what was done and the answer.
#![tactic(auto)]

ghost use Rattle.std.specs.Prelude.{◌<◌};
ghost use Rattle.words.specs.declared.sizes.TheConstants.{STATE_LENGTH};

use kernel::states::{kernel_boot, kernel_check, kernel_tick};
use std::io::Result;
use words::layout::{
    DIRECTORY_NAMED_AT, ENDPOINT_TAG, FLAGS_AT, HIGH_AT, NOTE_SIZE, NOTES, OBJECT_SPARE_AT,
    PARENT_AT, POSITION_VALUE_AT,
};
use words::sizes::{
    CLOCK_OFFSET, ENTRY_SIZE, HEADER_SIZE, POSITION_SIZE, SLOT_COUNT, SLOT_SIZE, STATE_LENGTH,
};

// Boot and the tick answer 0 or −19.
fn say_answer(rt: &impl Print, what: &str, answer: i32) -> Result<()> {
    match answer {
        0 | -19 => println!(rt; "{what}: {answer}"),
        _ => println!(rt; "{what}: an answer that is not listed"),
    }
}

fn say_check(rt: &impl Print, what: &str, s: &[u8; STATE_LENGTH]) -> Result<()> {
    let answer = if kernel_check(s) { "yes" } else { "no" };
    println!(rt; "{what}: {answer}")
}

// A byte of the boot state that becomes another, and what that says of the state.
#[derive(Clone, Copy)]
struct Damage {
    what: &'static str,
    at: usize,
    byte: u8,
    ghost inside: { at < STATE_LENGTH },
}

const DAMAGES: [Damage; 9] = [
    Damage {
        what: "the last spare byte set",
        at: STATE_LENGTH - 1,
        byte: 1,
    },
    // Of the process at slot 18.
    Damage {
        what: "an unused byte of the process set",
        at: 18 * SLOT_SIZE + OBJECT_SPARE_AT,
        byte: 1,
    },
    Damage {
        what: "the last slot said to hold an endpoint",
        at: NOTES + NOTE_SIZE * (SLOT_COUNT - 1),
        byte: ENDPOINT_TAG,
    },
    // Of the boot table the flags of entry 0, the second byte of the high end of entry 4, the parent of entry 5.
    Damage {
        what: "the table's root with a flag fewer",
        at: FLAGS_AT,
        byte: 254,
    },
    Damage {
        what: "the memory root's high end past the end of memory",
        at: 4 * ENTRY_SIZE + HIGH_AT + 1,
        byte: 65,
    },
    Damage {
        what: "the endpoint's root made a child of itself",
        at: 5 * ENTRY_SIZE + PARENT_AT,
        byte: 6,
    },
    Damage {
        what: "the process's directory moved to the table",
        at: 18 * SLOT_SIZE + DIRECTORY_NAMED_AT,
        byte: 0,
    },
    // Of position 1 of the directory at slot 16.
    Damage {
        what: "a frame off by one",
        at: 16 * SLOT_SIZE + HEADER_SIZE + POSITION_SIZE + POSITION_VALUE_AT,
        byte: 1,
    },
    Damage {
        what: "the clock's high byte set",
        at: CLOCK_OFFSET + 3,
        byte: 255,
    },
];

// The check of a damaged state; the byte is put back.
fn say_damaged(rt: &impl Print, s: &mut [u8; STATE_LENGTH], damage: Damage) -> Result<()> {
    let was = s[damage.at];
    s[damage.at] = damage.byte;
    say_check(rt, damage.what, s)?;
    s[damage.at] = was;
    Ok(())
}

fn main(rt: HostRuntime) -> Result<()> {
    let mut s = [7u8; STATE_LENGTH];
    let mut short = [7u8; 64];
    say_check(&rt, "check of a buffer of sevens", &s)?;
    say_answer(&rt, "tick of a buffer of sevens", kernel_tick(&mut s))?;
    say_answer(&rt, "boot of 64 bytes", kernel_boot(&mut short))?;
    say_answer(&rt, "boot", kernel_boot(&mut s))?;
    say_check(&rt, "check", &s)?;
    say_answer(&rt, "tick", kernel_tick(&mut s))?;
    say_check(&rt, "check", &s)?;
    for damage in DAMAGES {
        say_damaged(&rt, &mut s, damage)?;
    }
    say_check(&rt, "check", &s)
}
