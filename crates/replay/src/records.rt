// What a recorded line says was done, and what came of it.
use crate::fields::{Answer, answer_in, number_of};
use input::fields::Fields;
use lines::requests::Call;

#[derive(Clone, Copy)]
pub enum Step {
    Boot(Answer),
    Tick(Answer),
    Set { at: u32, word: u32 },
    Made { call: Call, answer: Answer },
    Hash(u64),
}

// A line whose first byte is no step's.
#[derive(Clone, Copy)]
pub struct Unreadable;

// By the line's first byte; a blank line and a comment say nothing.
pub(crate) fn step_in(line: &[u8]) -> Result<Option<Step>, Unreadable> {
    let mut fields = Fields { line, at: 1 };
    let step = match line.first() {
        None | Some(b'#') => return Ok(None),
        Some(b'b') => Step::Boot(answer_in(&mut fields)),
        Some(b't') => Step::Tick(answer_in(&mut fields)),
        Some(b'p') => Step::Set {
            at: number_of(&mut fields),
            word: number_of(&mut fields),
        },
        Some(b'c') => Step::Made {
            call: Call {
                caller: number_of(&mut fields),
                w0: number_of(&mut fields),
                w1: number_of(&mut fields),
                w2: number_of(&mut fields),
                w3: number_of(&mut fields),
            },
            answer: answer_in(&mut fields),
        },
        Some(b'h') => Step::Hash(
            u64::from(number_of(&mut fields)) << 32 | u64::from(number_of(&mut fields)),
        ),
        Some(_) => return Err(Unreadable),
    };
    Ok(Some(step))
}
