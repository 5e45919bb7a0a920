// A state read from Intel HEX: from any text that gives each of its bytes once.
#![tactic(auto)]

ghost use Rattle.std.specs.Prelude.{◌≡◌};
ghost use Rattle.intel_hex.specs.Outcomes.{read_outcome};
ghost use Rattle.intel_hex.specs.Reading.{taken_of};
ghost use Rattle.hex_reading.specs.Told.{reply_of};

mod cells;
mod faults;
mod records;
mod taking;
mod text_lines;

use crate::cells::bytes_of;
use crate::faults::{Unread, number_of};
use crate::taking::Course;
use audit::well_formed;
use words::sizes::STATE_LENGTH;

// The destination is not written before the check has passed, and then from the cells again: a copy of the bytes would be a call of
// memcpy, and the archive needs of the C library memset alone (include/thepharok.h).
fn read_state(text: &[u8], s: &mut [u8]) -> Result<(), Unread>
    ensures { (record { reply = reply_of result; buffer = s.new }) ≡ read_outcome text.now s.old }
{
    if s.len() != STATE_LENGTH {
        return Err(Unread::BadState);
    }
    let mut course = Course::new();
    course.read(text)?;
    let mut state = [0u8; STATE_LENGTH];
    bytes_of(&course.cells, &mut state);
    if !well_formed(&state) {
        return Err(Unread::BadState);
    }
    bytes_of(&course.cells, s);
    Ok(())
}

// "−19 first for a destination of another length, last for the state read"
pub fn read_hex(text: &[u8], s: &mut [u8]) -> i32
    ensures { (record { reply = result; buffer = s.new }) ≡ read_outcome text.now s.old }
{
    match read_state(text, s) {
        Ok(()) => 0,
        Err(unread) => number_of(unread),
    }
}

// How many lines are taken before the first faulty one.
pub fn lines_taken(text: &[u8]) -> usize
    ensures { result ≡ taken_of text.now }
{
    let mut course = Course::new();
    let _ = course.read(text);
    course.taken
}
