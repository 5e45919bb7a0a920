// Damaged texts of the boot state, whose answers come from the independent model (model/, `hex_cases`), read by the proved kernel. It
// prints how many texts had each answer; at the first case that comes out otherwise it says which line that is, and stops. The form
// of a line stands at the top of the file `stdin` beside src/.
#![tactic(auto)]

mod answers;
mod fields;
mod outcomes;
mod records;
mod texts;

use crate::answers::Counts;
use crate::outcomes::{Outcome, boot};
use crate::records::{Case, case_in, says_nothing};
use input::stop::Stop;
use input::{Line, each_nonempty_line};
use intel_hex::marks::TEXT_LENGTH;
use kernel::firmware::kernel_write_hex;
use std::io;
use words::sizes::STATE_LENGTH;

fn judge(
    rt: &impl Print,
    written: &[u8; TEXT_LENGTH],
    counts: &mut Counts,
    number: u64,
    c: Case,
) -> Result<(), Stop> {
    let outcome = Outcome::of_case(rt, written, c)?;
    if outcome.is_as_recorded(c) {
        counts.count(c.answer);
        return Ok(());
    }
    outcome.say_difference(rt, number, c)?;
    Err(Stop::Differs)
}

// Never inlined: its frame has room for the texts of a case, for which a line that says nothing would pay too.
#[inline(never)]
fn judge_line(
    rt: &impl Print,
    written: &[u8; TEXT_LENGTH],
    counts: &mut Counts,
    line: Line,
) -> Result<(), Stop> {
    let number = line.number;
    match case_in(line) {
        Ok(c) => judge(rt, written, counts, number, c),
        Err(_) => {
            println!(rt; "line {number} is no case")?;
            Err(Stop::Differs)
        }
    }
}

// Whether the boot state's text was written.
fn write_boot(rt: &impl Print, written: &mut [u8; TEXT_LENGTH]) -> io::Result<bool> {
    let mut s = [0u8; STATE_LENGTH];
    boot(rt, &mut s)?;
    Ok(kernel_write_hex(&s, written) == 0)
}

fn main(rt: HostRuntime) -> io::Result<()> {
    let mut written = [0u8; TEXT_LENGTH];
    if !write_boot(&rt, &mut written)? {
        return println!(rt; "the boot state was not written");
    }
    let mut counts = Counts::new();
    match each_nonempty_line(rt.stdin(), |line| {
        if says_nothing(line) {
            Ok(())
        } else {
            judge_line(&rt, &written, &mut counts, line)
        }
    }) {
        Ok(()) => counts.say(&rt),
        Err(Stop::Differs) => Ok(()),
        Err(Stop::Failed(e)) => Err(e),
    }
}
