// The answers that reading a text gives, as a recorded line spells them and as they are printed, and how many texts had each.
use crate::fields::value_of;
use std::fmt;
use std::io::Result;

#[derive(Clone, Copy, PartialEq, Eq)]
pub enum Answer {
    Taken,
    NoState,
    BadLine,
    BadSum,
    BadAddress,
    BadEnd,
}

const ANSWERS: [Answer; 6] = [
    Answer::Taken,
    Answer::NoState,
    Answer::BadLine,
    Answer::BadSum,
    Answer::BadAddress,
    Answer::BadEnd,
];

// A number that reading does not answer.
#[derive(Clone, Copy)]
pub struct NoAnswer;

impl TryFrom<i32> for Answer {
    type Error = NoAnswer;

    fn try_from(number: i32) -> std::result::Result<Answer, NoAnswer> {
        match number {
            0 => Ok(Answer::Taken),
            -19 => Ok(Answer::NoState),
            -30 => Ok(Answer::BadLine),
            -31 => Ok(Answer::BadSum),
            -32 => Ok(Answer::BadAddress),
            -33 => Ok(Answer::BadEnd),
            _ => Err(NoAnswer),
        }
    }
}

impl From<Answer> for i32 {
    fn from(answer: Answer) -> i32 {
        match answer {
            Answer::Taken => 0,
            Answer::NoState => -19,
            Answer::BadLine => -30,
            Answer::BadSum => -31,
            Answer::BadAddress => -32,
            Answer::BadEnd => -33,
        }
    }
}

impl Answer {
    // 0, or a refusal behind its sign.
    pub(crate) fn in_word(word: &[u8]) -> Option<Answer> {
        match word {
            [b'-', digits @ ..] => match value_of(digits)? {
                0 => None,
                k => Answer::try_from(i32::try_from(k).ok()?.wrapping_neg()).ok(),
            },
            _ => match value_of(word)? {
                0 => Some(Answer::Taken),
                _ => None,
            },
        }
    }
}

impl fmt::Display for Answer {
    fn fmt<W: fmt::Write>(&self, f: &mut fmt::Formatter<W>) -> fmt::Result {
        let number = i32::from(*self);
        write!(f, "{number}")
    }
}

// How many texts had each answer, in the order of the answers.
#[derive(Clone, Copy)]
pub struct Counts([u64; 6]);

impl Counts {
    pub(crate) fn new() -> Self {
        Counts([0; 6])
    }

    pub(crate) fn count(&mut self, answer: Answer) {
        let place = answer as usize;
        self.0[place] = self.0[place].wrapping_add(1);
    }

    pub(crate) fn say(&self, rt: &impl Print) -> Result<()> {
        for (answer, n) in ANSWERS.iter().zip(&self.0) {
            println!(rt; "{answer}: {n} texts")?;
        }
        Ok(())
    }
}
