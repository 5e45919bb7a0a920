// A word of a line where a number has to stand.
ghost use Rattle.std.specs.Prelude.{◌≡◌};
ghost use Rattle.lines.specs.Requests.{operand_at};

use crate::line_words::LineWords;
use crate::numbers::{NumberFault, number_in};
use crate::requests::Fault;

impl LineWords<'_> {
    // Word k, from 0; faults number the words from 1.
    pub(crate) fn operand_at(&self, k: u8) -> Result<u32, Fault>
        ensures { result ≡ operand_at self.now k }
    {
        let place = u32::from(k) + 1;
        match number_in(self.word(usize::from(k))) {
            Ok(n) => Ok(n),
            Err(NumberFault::NotANumber) => Err(Fault::NotANumber(place)),
            Err(NumberFault::TooLarge) => Err(Fault::TooLarge(place)),
        }
    }
}
