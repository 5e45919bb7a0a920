// The forms that a line can have: a command alone, a command with a file name, a command with a number, a call.
ghost use Rattle.std.specs.Prelude.{◌≡◌, length};
ghost use Rattle.lines.specs.Requests.{call_of, formed, tick_of};

use crate::line_words::LineWords;
use crate::requests::{Call, Fault, Request};

impl LineWords<'_> {
    // What is asked for by a line that has to have n words; else its fault.
    pub(crate) fn formed(&self, n: usize, asked: Request, other: Fault) -> Result<Request, Fault>
        ensures { result ≡ formed n (length self.now) asked other }
    {
        if self.count() == n {
            Ok(asked)
        } else {
            Err(other)
        }
    }

    // `tick K`.
    pub(crate) fn tick(&self) -> Result<Request, Fault>
        ensures { result ≡ tick_of self.now }
    {
        if self.count() != 2 {
            return Err(Fault::TickForm);
        }
        Ok(Request::Tick(self.operand_at(1)?))
    }

    // `CALLER W0 W1 W2 W3`: the first word that is no number decides.
    pub(crate) fn call(&self) -> Result<Request, Fault>
        ensures { result ≡ call_of self.now }
    {
        if self.count() != 5 {
            return Err(Fault::Count(self.count()));
        }
        Ok(Request::Call(Call {
            caller: self.operand_at(0)?,
            w0: self.operand_at(1)?,
            w1: self.operand_at(2)?,
            w2: self.operand_at(3)?,
            w3: self.operand_at(4)?,
        }))
    }
}
