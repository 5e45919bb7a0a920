// What a line's reply goes by.

// The line's number, and whether an answer has words behind it: of two texts for the same numbers it picks one.
#[derive(Clone, Copy)]
pub struct Reply {
    pub number: u64,
    pub in_words: bool,
}
