// The recorded steps made again on one state, and what has been met on the way.
use crate::fields::Answer;
use crate::pairs::{Pairs, column};
use crate::records::{Step, step_in};
use crate::tally::Tally;
use kernel::calls::kernel_call;
use kernel::states::{kernel_boot, kernel_tick};
use lines::requests::Call;
use words::sizes::STATE_LENGTH;

// A word begins before this.
const WORDS_END: u32 = STATE_LENGTH as u32 - 3;

#[derive(Drop)]
pub struct Replay {
    state: [u8; STATE_LENGTH],
    pub pairs: Pairs,
    pub tally: Tally,
}

fn is_as_recorded(given: i32, recorded: Answer) -> bool {
    match recorded {
        Ok(n) => u32::try_from(given) == Ok(n),
        Err(k) => column(given) == k.wrapping_add(1) as usize,
    }
}

// hash·33 + byte mod 2^64: every byte and its place count.
fn hash(s: &[u8; STATE_LENGTH]) -> u64 {
    s.iter().fold(5381, |h: u64, &byte| {
        h.wrapping_mul(33).wrapping_add(u64::from(byte))
    })
}

impl Replay {
    pub(crate) fn new() -> Self {
        Replay {
            state: [0; STATE_LENGTH],
            pairs: Pairs::new(),
            tally: Tally::default(),
        }
    }

    // Little-endian.
    fn set_word(&mut self, at: u32, word: u32) {
        if at < WORDS_END {
            let at = at as usize;
            self.state[at..at + 4].copy_from_slice(&word.to_le_bytes());
        }
    }

    fn call(&mut self, c: Call) -> i32 {
        let given = kernel_call(&mut self.state, c.caller, c.w0, c.w1, c.w2, c.w3);
        self.pairs.note(c.w0, given);
        given
    }

    fn comes_out(&mut self, step: Step) -> bool {
        match step {
            Step::Boot(answer) => is_as_recorded(kernel_boot(&mut self.state), answer),
            Step::Tick(answer) => is_as_recorded(kernel_tick(&mut self.state), answer),
            Step::Set { at, word } => {
                self.set_word(at, word);
                true
            }
            Step::Made { call, answer } => is_as_recorded(self.call(call), answer),
            Step::Hash(recorded) => hash(&self.state) == recorded,
        }
    }

    // Whether the step of a line comes out as recorded; a line that cannot be read does not.
    pub(crate) fn take(&mut self, line: &[u8]) -> bool {
        match step_in(line) {
            Ok(None) => true,
            Ok(Some(step)) => {
                self.tally.count(step);
                self.comes_out(step)
            }
            Err(_) => false,
        }
    }
}
