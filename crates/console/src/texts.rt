// `save` and `load`: the state's text into a file, and the state from a file's text. A text that is refused leaves the state.
use crate::files::{Trouble, read_file, write_file};
use crate::reply::Reply;
use intel_hex::marks::{LONGEST_TEXT, TEXT_LENGTH};
use kernel::firmware::{kernel_hex_lines, kernel_read_hex, kernel_write_hex};
use rows::say_row;
use std::io::Result;
use std::rt::Files;
use words::sizes::STATE_LENGTH;

// What comes of a text, each a row of what is printed.
#[derive(Clone, Copy)]
enum Outcome {
    Saved,
    Loaded,
    BadLine,
    BadSum,
    BadAddress,
    BadEnd,
    NoState,
}

impl Outcome {
    // By the answer to reading a text; the number of another answer has no outcome of its own.
    fn of_load(answer: i32) -> Self {
        match answer {
            0 => Outcome::Loaded,
            -30 => Outcome::BadLine,
            -31 => Outcome::BadSum,
            -32 => Outcome::BadAddress,
            -33 => Outcome::BadEnd,
            _ => Outcome::NoState,
        }
    }
}

fn say_meaning(rt: &impl Print, outcome: Outcome, line: u64) -> Result<()> {
    say_row(
        rt,
        b"0 done: the state's text is in the file\n\
        0 done: the state is the file's\n\
        -30 line #: no record stands here: a character, the line's end, the length or the type is wrong; make the file anew\n\
        -31 line #: the record's sum is wrong: the line was altered; fetch the file again\n\
        -32 line #: bytes outside 20000000..20004440 or given twice, or at the end record bytes that no line gave; place the state at 0x20000000\n\
        -33 line #: the file ends here without its end record, or goes on behind it; fetch the file again\n\
        -19 no such state: the lines are right, but what they give is not well formed; save a state anew\n",
        outcome as u32,
        [line, 0, 0, 0],
    )
}

fn say_number(rt: &impl Print, outcome: Outcome, line: u64) -> Result<()> {
    say_row(
        rt,
        b"0\n\
        0\n\
        -30 line #\n\
        -31 line #\n\
        -32 line #\n\
        -33 line #\n\
        -19\n",
        outcome as u32,
        [line, 0, 0, 0],
    )
}

impl Reply {
    // `line` is the file's that is at fault.
    fn say_outcome(self, rt: &impl Print, outcome: Outcome, line: u64) -> Result<()> {
        if self.in_words {
            say_meaning(rt, outcome, line)
        } else {
            say_number(rt, outcome, line)
        }
    }

    // The line of the reply is the one that names the file.
    fn say_trouble(self, rt: &impl Print, trouble: Trouble) -> Result<()> {
        say_row(
            rt,
            b"? line #: cannot write that file: look at its name, its folder and the room there\n\
        ? line #: cannot read that file: look at its name and who may read it\n\
        ? line #: that file is longer than 262144 bytes, more than a state's text needs\n",
            trouble as u32,
            [self.number, 0, 0, 0],
        )
    }
}

fn save_text(
    rt: &(impl Files + Print),
    s: &[u8; STATE_LENGTH],
    text: &mut [u8; TEXT_LENGTH],
    name: &[u8],
    reply: Reply,
) -> Result<()> {
    if kernel_write_hex(s, text) != 0 {
        return reply.say_outcome(rt, Outcome::NoState, 0);
    }
    match write_file(rt, name, text) {
        Ok(()) => reply.say_outcome(rt, Outcome::Saved, 0),
        Err(trouble) => reply.say_trouble(rt, trouble),
    }
}

// The text's array is lent whole to another function: where an array is lent as a slice beside its making, its length is counted out
// byte by byte in the proof. `save` and `load` are never inlined: within the function that does each line, their arrays would be part of
// its frame, and every line, a remark too, would pay for the room.
#[inline(never)]
pub(crate) fn save(
    rt: &(impl Files + Print),
    s: &[u8; STATE_LENGTH],
    name: &[u8],
    reply: Reply,
) -> Result<()> {
    let mut text = [0u8; TEXT_LENGTH];
    save_text(rt, s, &mut text, name, reply)
}

// The line behind those that are taken is the one at fault.
fn load_text(rt: &impl Print, s: &mut [u8; STATE_LENGTH], text: &[u8], reply: Reply) -> Result<()> {
    let outcome = Outcome::of_load(kernel_read_hex(text, s));
    let line = (kernel_hex_lines(text) as u64).wrapping_add(1);
    reply.say_outcome(rt, outcome, line)
}

#[inline(never)]
pub(crate) fn load(
    rt: &(impl Files + Print),
    s: &mut [u8; STATE_LENGTH],
    name: &[u8],
    reply: Reply,
) -> Result<()> {
    let mut bytes = [0u8; LONGEST_TEXT];
    match read_file(rt, name, &mut bytes) {
        Ok(text) => load_text(rt, s, text, reply),
        Err(trouble) => reply.say_trouble(rt, trouble),
    }
}
