// What is wrong with a line, and what a right one looks like.
use crate::reply::Reply;
use lines::requests::Fault;
use rows::say_row;
use std::io::Result;

// Why a line is not done, each a row of what is printed.
#[derive(Clone, Copy)]
enum Reason {
    AfterBoot,
    AfterShow,
    SaveForm,
    LoadForm,
    TickForm,
    Start,
    Count,
    NotANumber,
    TooLarge,
    LongLine,
}

impl Reply {
    // `named` is the number that the row names behind the line's, where it names one.
    fn say_reason(self, rt: &impl Print, reason: Reason, named: u64) -> Result<()> {
        say_row(
            rt,
            b"? line #: boot takes nothing after it\n\
            ? line #: show takes nothing after it\n\
            ? line #: save takes one file name without blanks, as in: save state.hex\n\
            ? line #: load takes one file name without blanks, as in: load state.hex\n\
            ? line #: tick takes one number, as in: tick 8\n\
            ? line #: begin with boot, tick, show, save, load or the caller's number\n\
            ? line #: a call is five numbers, CALLER W0 W1 W2 W3, and here are #\n\
            ? line #: word # is not a number (decimal, or hex as in 0x1F)\n\
            ? line #: word # is above 4294967295\n\
            ? line #: longer than 1024 bytes\n",
            reason as u32,
            [self.number, named, 0, 0],
        )
    }

    pub(crate) fn say_fault(self, rt: &impl Print, fault: Fault) -> Result<()> {
        match fault {
            Fault::AfterBoot => self.say_reason(rt, Reason::AfterBoot, 0),
            Fault::AfterShow => self.say_reason(rt, Reason::AfterShow, 0),
            Fault::SaveForm => self.say_reason(rt, Reason::SaveForm, 0),
            Fault::LoadForm => self.say_reason(rt, Reason::LoadForm, 0),
            Fault::TickForm => self.say_reason(rt, Reason::TickForm, 0),
            Fault::Start => self.say_reason(rt, Reason::Start, 0),
            Fault::Count(k) => self.say_reason(rt, Reason::Count, k as u64),
            Fault::NotANumber(k) => self.say_reason(rt, Reason::NotANumber, u64::from(k)),
            Fault::TooLarge(k) => self.say_reason(rt, Reason::TooLarge, u64::from(k)),
        }
    }

    pub(crate) fn say_long_line(self, rt: &impl Print) -> Result<()> {
        self.say_reason(rt, Reason::LongLine, 0)
    }
}
