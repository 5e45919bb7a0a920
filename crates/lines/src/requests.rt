// What a line asks for, or the first fault in it.
ghost use Rattle.std.specs.Prelude.{◌≡◌};
ghost use Rattle.lines.specs.Requests.{asked_by, name_in, request_from, request_of, unreturned};

use crate::line_words::LineWords;
use crate::split::word;

// What is wrong in a line. Words are numbered from 1; Count has how many there are.
#[derive(Clone, Copy)]
pub enum Fault {
    AfterBoot,
    AfterShow,
    SaveForm,
    LoadForm,
    TickForm,
    Start,
    Count(usize),
    NotANumber(u32),
    TooLarge(u32),
}

// The caller's slot and the words N:C, P1, P2, P3.
#[derive(Clone, Copy)]
pub struct Call {
    pub caller: u32,
    pub w0: u32,
    pub w1: u32,
    pub w2: u32,
    pub w3: u32,
}

#[derive(Clone, Copy)]
pub enum Request {
    Nothing,
    Boot,
    Show,
    Save,
    Load,
    Tick(u32),
    Call(Call),
}

// "A carriage return before the line's end is not read."
fn without_return(line: &[u8]) -> &[u8]
    ensures { result.now ≡ unreturned line.now }
{
    match line {
        [front @ .., b'\r'] => front,
        _ => line,
    }
}

impl LineWords<'_> {
    // By the first word: a command, or a call, which begins with a digit.
    #[tactic(auto, using(crate::proofs::Spelling::spelling), unfolding(crate::specs::Requests::asked_by))]
    fn asked_by(&self, first: &[u8]) -> Result<Request, Fault>
        ensures { result ≡ asked_by first.now self.now }
    {
        match first {
            b"boot" => self.formed(1, Request::Boot, Fault::AfterBoot),
            b"show" => self.formed(1, Request::Show, Fault::AfterShow),
            b"save" => self.formed(2, Request::Save, Fault::SaveForm),
            b"load" => self.formed(2, Request::Load, Fault::LoadForm),
            b"tick" => self.tick(),
            [b'0'..=b'9', ..] => self.call(),
            _ => Err(Fault::Start),
        }
    }

    fn request(&self) -> Result<Request, Fault>
        ensures { result ≡ request_from self.now }
    {
        if self.count() == 0 {
            return Ok(Request::Nothing);
        }
        match self.word(0) {
            [b'#', ..] => Ok(Request::Nothing),
            first => self.asked_by(first),
        }
    }
}

pub fn request_in(line: &[u8]) -> Result<Request, Fault>
    ensures { result ≡ request_of line.now }
{
    let text = without_return(line);
    // a remark first: its words, which may be many, need not be counted
    match word(text, 0) {
        [b'#', ..] => Ok(Request::Nothing),
        _ => LineWords::of(text).request(),
    }
}

// The file that a line names after `save` or `load`; empty where it has one word or none.
pub fn name_in(line: &[u8]) -> &[u8]
    ensures { result.now ≡ name_in line.now }
{
    let text = without_return(line);
    word(text, 1)
}
