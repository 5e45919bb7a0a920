// Document 01's worked cases that bear no mark P, each from boot by caller 18: what was done, and the answer.
#![tactic(auto)]

use kernel::calls::kernel_call;
use kernel::states::{kernel_boot, kernel_tick};
use std::io::Result;
use words::sizes::{SLOT_SIZE, STATE_LENGTH};

// What is done to a state: a call's words N:C, P1, P2, P3 have the answer that document 01 gives.
#[derive(Clone, Copy)]
enum Step {
    Boot,
    Ticks(u32),
    FillCount,
    SayCount,
    Call {
        what: &'static str,
        words: [u32; 4],
        wanted: i32,
    },
}

// The grant of SIG on 0x20000400 to below 0x20000800.
const GRANT: Step = Step::Call {
    what: "grant",
    words: [0x08030410, 6, 4, 0x20002000],
    wanted: 0,
};

// Of the boot directory's root, which the boot process uses.
const DELETION: [u32; 4] = [0x00070000, 1, 0, 0];

const RECEIVE_NM: Step = Step::Call {
    what: "receive NM",
    words: [0x00130000, 5, 3, 0],
    wanted: 2147483647,
};

const RECEIVE_NS: [u32; 4] = [0x00130000, 5, 2, 0];

const STEPS: [Step; 20] = [
    // "An endpoint through it at place 7, each alone: 0x200007C0 is 0, 0x20000800 is −5".
    Step::Boot,
    GRANT,
    Step::Call {
        what: "endpoint at 0x200007C0 through it",
        words: [0x00100000, 6, 7, 0x200007C0],
        wanted: 0,
    },
    Step::Boot,
    GRANT,
    Step::Call {
        what: "endpoint at 0x20000800 through it",
        words: [0x00100000, 6, 7, 0x20000800],
        wanted: -5,
    },
    // "Frozen at tick t: delete at t+7 is −8, at t+8 passes to REFCNT".
    Step::Boot,
    Step::Call {
        what: "freeze the directory's root",
        words: [0x00040000, 1, 0, 0],
        wanted: 0,
    },
    Step::Ticks(7),
    Step::Call {
        what: "delete after 7 ticks",
        words: DELETION,
        wanted: -8,
    },
    Step::Ticks(1),
    Step::Call {
        what: "delete after 8 ticks",
        words: DELETION,
        wanted: -9,
    },
    // "Count 2^32−1, NM: 2147483647, leaving 2147483648."
    Step::Boot,
    Step::FillCount,
    Step::Call {
        what: "count 2^32-1, send",
        words: [0x00120000, 5, 0, 0],
        wanted: -14,
    },
    RECEIVE_NM,
    Step::SayCount,
    RECEIVE_NM,
    Step::Call {
        what: "receive NS",
        words: RECEIVE_NS,
        wanted: 1,
    },
    Step::Call {
        what: "receive NS",
        words: RECEIVE_NS,
        wanted: 0,
    },
];

// The boot endpoint's count: the first word of slot 19.
const COUNT: usize = 19 * SLOT_SIZE;

// Four lines, as `hex_cases` has too: a library for them would be longer.
fn boot(rt: &impl Print, s: &mut [u8; STATE_LENGTH]) -> Result<()> {
    if kernel_boot(s) != 0 {
        println!(rt; "boot refused")?;
    }
    Ok(())
}

fn ticks(rt: &impl Print, s: &mut [u8; STATE_LENGTH], n: u32) -> Result<()> {
    for _ in 0..n {
        if kernel_tick(s) != 0 {
            println!(rt; "tick refused")?;
        }
    }
    Ok(())
}

fn say_count(rt: &impl Print, s: &[u8; STATE_LENGTH]) -> Result<()> {
    let count = u32::from_le_bytes([s[COUNT], s[COUNT + 1], s[COUNT + 2], s[COUNT + 3]]);
    println!(rt; "left: {count}")
}

fn call(
    rt: &impl Print,
    s: &mut [u8; STATE_LENGTH],
    what: &str,
    words: [u32; 4],
    wanted: i32,
) -> Result<()> {
    let [w0, w1, w2, w3] = words;
    let answer = kernel_call(s, 18, w0, w1, w2, w3);
    if answer == wanted {
        println!(rt; "{what}: {answer}")
    } else {
        println!(rt; "{what}: another answer")
    }
}

fn take(rt: &impl Print, s: &mut [u8; STATE_LENGTH], step: Step) -> Result<()> {
    match step {
        Step::Boot => boot(rt, s),
        Step::Ticks(n) => ticks(rt, s, n),
        Step::FillCount => {
            s[COUNT..COUNT + 4].copy_from_slice(&u32::MAX.to_le_bytes());
            Ok(())
        }
        Step::SayCount => say_count(rt, s),
        Step::Call {
            what,
            words,
            wanted,
        } => call(rt, s, what, words, wanted),
    }
}

fn main(rt: HostRuntime) -> Result<()> {
    let mut s = [0u8; STATE_LENGTH];
    for step in STEPS {
        take(&rt, &mut s, step)?;
    }
    Ok(())
}
