// A line and the number of its words, which contracts see as the list of the words.
ghost use Rattle.std.specs.Prelude.{List, ℕ, ◌≡◌, [], get_or, length};
ghost use Rattle.lines.specs.Words.{words_of};

use crate::split::{word, word_count};
use std::marker::Model;

#[derive(Drop)]
pub(crate) struct LineWords<'a> {
    text: &'a [u8],
    count: usize,
}

impl<'a> Model for LineWords<'a> {
    ghost Value = { List (List ℕ) };

    ghost view = { λ l. words_of l.text.now };

    ghost invariant = { λ l. l.count ≡ length (words_of l.text.now) };
}

impl<'a> LineWords<'a> {
    pub(crate) fn of(text: &'a [u8]) -> Self
        ensures { result ≡ words_of text.now }
    {
        LineWords {
            text,
            count: word_count(text),
        }
    }

    pub(crate) fn count(&self) -> usize
        ensures { result ≡ length self.now }
    {
        self.count
    }

    // Word k, from 0; empty where there are not so many.
    pub(crate) fn word(&self, k: usize) -> &'a [u8]
        ensures { result.now ≡ get_or self.now k [] }
    {
        word(self.text, k)
    }
}
