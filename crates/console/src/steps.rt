// What a line does to the state, and what it prints.
use crate::reply::Reply;
use crate::texts::{load, save};
use input::Line;
use kernel::calls::kernel_call;
use kernel::states::{kernel_boot, kernel_tick};
use lines::requests::{Call, Request, name_in, request_in};
use showing::show;
use std::io::Result;
use std::rt::Files;
use words::fields::{Words, call_number};
use words::sizes::STATE_LENGTH;

// The state that the lines act on, and whether answers have words behind them.
#[derive(Drop)]
pub struct Session {
    state: [u8; STATE_LENGTH],
    in_words: bool,
}

// The words of a call; nc is N:C.
fn words_of(c: Call) -> Words {
    Words {
        nc: c.w0,
        p1: c.w1,
        p2: c.w2,
        p3: c.w3,
    }
}

impl Session {
    // At the boot state.
    pub(crate) fn new(in_words: bool) -> Self {
        let mut session = Session {
            state: [0; STATE_LENGTH],
            in_words,
        };
        session.boot();
        session
    }

    fn boot(&mut self) {
        kernel_boot(&mut self.state);
    }

    // K ticks, left at the first that is refused; the answer is the last one's, and 0 where K is 0.
    fn tick(&mut self, k: u32) -> i32 {
        for _ in 0..k {
            let answer = kernel_tick(&mut self.state);
            if answer != 0 {
                return answer;
            }
        }
        0
    }

    fn call(&mut self, c: Call) -> i32 {
        kernel_call(&mut self.state, c.caller, c.w0, c.w1, c.w2, c.w3)
    }

    fn fulfil(
        &mut self,
        rt: &(impl Files + Print),
        request: Request,
        line: &[u8],
        reply: Reply,
    ) -> Result<()> {
        match request {
            Request::Nothing => Ok(()),
            Request::Boot => {
                self.boot();
                Ok(())
            }
            Request::Show => show(rt, &self.state),
            Request::Save => save(rt, &self.state, name_in(line), reply),
            Request::Load => load(rt, &mut self.state, name_in(line), reply),
            Request::Tick(k) => reply.say_answer(rt, self.tick(k), None),
            Request::Call(c) => {
                let number = call_number(words_of(c));
                reply.say_answer(rt, self.call(c), Some(number))
            },
        }
    }

    pub(crate) fn take(&mut self, rt: &(impl Files + Print), line: Line) -> Result<()> {
        let reply = Reply {
            number: line.number,
            in_words: self.in_words,
        };
        if line.is_longer {
            return reply.say_long_line(rt);
        }
        match request_in(line.bytes) {
            Ok(request) => self.fulfil(rt, request, line.bytes, reply),
            Err(fault) => reply.say_fault(rt, fault),
        }
    }
}
