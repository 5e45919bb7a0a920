// What reading a case's text gives, held against what was recorded.
use crate::answers::Answer;
use crate::records::Case;
use crate::texts::Text;
use intel_hex::marks::TEXT_LENGTH;
use kernel::firmware::{kernel_hex_lines, kernel_read_hex};
use kernel::states::kernel_boot;
use std::io::Result;
use words::sizes::STATE_LENGTH;

// What a destination holds before a text is read into it: no state, so it cannot be taken for one that was read.
const HELD: u8 = 0xA5;

// The answer, if it is one of those that reading has, how many lines were taken, and whether the destination holds what belongs there.
#[derive(Clone, Copy)]
pub struct Outcome {
    answer: Option<Answer>,
    taken: usize,
    is_right: bool,
}

// Four lines, as `cases` has too: a library for them would be longer.
pub(crate) fn boot(rt: &impl Print, s: &mut [u8; STATE_LENGTH]) -> Result<()> {
    if kernel_boot(s) != 0 {
        println!(rt; "boot refused")?;
    }
    Ok(())
}

// A text that is taken gives the boot state; "Lent buffers are written only on success."
fn is_right(rt: &impl Print, s: &[u8; STATE_LENGTH], answer: Option<Answer>) -> Result<bool> {
    let mut wanted = [HELD; STATE_LENGTH];
    if answer == Some(Answer::Taken) {
        boot(rt, &mut wanted)?;
    }
    Ok(*s == wanted)
}

fn say_answer(rt: &impl Print, answer: Option<Answer>) -> Result<()> {
    match answer {
        Some(answer) => print!(rt; "{answer}"),
        None => print!(rt; "another answer"),
    }
}

impl Outcome {
    // What a text gives.
    fn of(rt: &impl Print, text: &[u8]) -> Result<Self> {
        let mut s = [HELD; STATE_LENGTH];
        let answer = Answer::try_from(kernel_read_hex(text, &mut s)).ok();
        Ok(Outcome {
            answer,
            taken: kernel_hex_lines(text),
            is_right: is_right(rt, &s, answer)?,
        })
    }

    pub(crate) fn of_case(rt: &impl Print, written: &[u8; TEXT_LENGTH], c: Case) -> Result<Self> {
        let text = Text::of(written, c);
        Outcome::of(rt, text.as_slice())
    }

    pub(crate) fn is_as_recorded(self, c: Case) -> bool {
        self.answer == Some(c.answer) && self.taken == c.taken && self.is_right
    }

    pub(crate) fn say_difference(self, rt: &impl Print, number: u64, c: Case) -> Result<()> {
        print!(rt;
            "line {number}: expected {} after {} lines, came ",
            c.answer, c.taken
        )?;
        say_answer(rt, self.answer)?;
        print!(rt; " after {} lines", self.taken)?;
        if !self.is_right {
            print!(rt; " with other bytes in the destination")?;
        }
        println!(rt)
    }
}
