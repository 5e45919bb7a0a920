// A person at the kernel: lines from standard input, each a boot, ticks, a call, a look at the state or a file of it; docs/USING.md has
// their form.
// The state, a line and a row that is printed have each a buffer of fixed length, however long the input is.
#![tactic(auto)]

mod answers;
mod faults;
mod files;
mod reply;
mod steps;
mod texts;

use crate::steps::Session;
use input::each_nonempty_line;
use std::env::FillError;
use std::io::Result;
use std::rt::Env;

// An argument that the console does not take.
#[derive(Clone, Copy)]
struct UnknownArgument;

// Whether the one argument asks for words behind the answers.
fn asks_for_words(rt: &impl Env) -> std::result::Result<bool, UnknownArgument> {
    let mut word = [0u8; 8];
    match rt.arg(1, &mut word) {
        Err(FillError::NotPresent) => Ok(false),
        Ok(n) if word.starts_with(b"words") && n == 5 => Ok(true),
        _ => Err(UnknownArgument),
    }
}

fn main(rt: HostRuntime) -> Result<()> {
    let Ok(in_words) = asks_for_words(&rt) else {
        return rt
            .stderr()
            .write_all(b"console: the one argument that it takes is: words\n");
    };
    let mut session = Session::new(in_words);
    each_nonempty_line(rt.stdin(), |line| session.take(&rt, line))
}
