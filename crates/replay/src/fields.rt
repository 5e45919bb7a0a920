// The numbers among the fields of a recorded line.
use input::fields::Fields;
use lines::numbers::number_in;

// A recorded answer: a count, or k of the refusal −k.
pub type Answer = Result<u32, u32>;

// 0 where no number can be read: a line has so many fields, whatever they are, and comes out otherwise.
fn value_of(word: &[u8]) -> u32 {
    number_in(word).unwrap_or(0)
}

pub(crate) fn answer_in(fields: &mut Fields) -> Answer {
    match fields.word() {
        [b'-', digits @ ..] => Err(value_of(digits)),
        word => Ok(value_of(word)),
    }
}

// A sign is passed over.
pub(crate) fn number_of(fields: &mut Fields) -> u32 {
    match answer_in(fields) {
        Ok(n) | Err(n) => n,
    }
}
