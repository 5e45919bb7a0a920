// The words of a line by their place, from 0.
ghost use Rattle.std.specs.Prelude.{◌≡◌, [], get_or, length};
ghost use Rattle.lines.specs.Words.{words_of};

use crate::spans::{Span, word_after};

// Each turn goes on behind a word, so no range gives the places.
pub(crate) fn word_count(line: &[u8]) -> usize
    ensures { result ≡ length (words_of line.now) }
{
    let mut n = 0;
    let mut at = 0;
    while at < line.len() {
        let Span { from, to } = word_after(line, at);
        if from == line.len() {
            return n;
        }
        at = to;
        n += 1;
    }
    n
}

// Word k; empty where there are not so many.
pub(crate) fn word(line: &[u8], k: usize) -> &[u8]
    ensures { result.now ≡ get_or (words_of line.now) k [] }
{
    let mut at = 0;
    for _ in 0..k {
        at = word_after(line, at).to;
    }
    let Span { from, to } = word_after(line, at);
    &line[from..to]
}
