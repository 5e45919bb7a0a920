// The fields of a recorded line: its words, one after another.
ghost use Rattle.std.specs.Prelude.{◌≡◌};
ghost use Rattle.lines.specs.Spans.{word_after};
ghost use Rattle.input.specs.Fields.{word_at};

use lines::spans::{Span, word_after};

// A line, and where its next word is looked for.
#[derive(Clone, Copy)]
pub struct Fields<'a> {
    pub line: &'a [u8],
    pub at: usize,
}

impl<'a> Fields<'a> {
    // The next word; empty where there is none left.
    pub fn word(&mut self) -> &'a [u8]
        ensures value { result.now ≡ word_at self.old.line.now self.old.at }
        ensures line { self.new.line ≡ self.old.line }
        ensures at { self.new.at ≡ (word_after self.old.line.now self.old.at).to }
    {
        let Span { from, to } = word_after(self.line, self.at);
        self.at = to;
        &self.line[from..to]
    }
}
