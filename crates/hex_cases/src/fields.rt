// The numbers among the fields of a recorded line.
use input::fields::Fields;
use lines::numbers::number_in;

// None where the word is no number that a line can give.
pub(crate) fn value_of(word: &[u8]) -> Option<u32> {
    number_in(word).ok()
}

pub(crate) fn number_of(fields: &mut Fields) -> Option<usize> {
    value_of(fields.word()).map(|n| n as usize)
}
