// Recorded calls, whose answers and hashes of the whole state come from the independent model (model/, `vectors`), made again on
// the proved kernel. It prints how many steps of each sort there were and which answers each call gave; at the first step that comes
// out otherwise it says which line that is, and stops. The form of a line stands at the top of the file `stdin` beside src/.
#![tactic(auto)]

mod fields;
mod pairs;
mod records;
mod steps;
mod tally;

use crate::steps::Replay;
use input::stop::Stop;
use input::{Line, each_nonempty_line};
use std::io;

fn say_difference(rt: &impl Print, line: Line) -> io::Result<()> {
    print!(rt; "line {} does not come out as recorded: ", line.number)?;
    rt.write_all(line.bytes)?;
    println!(rt)
}

// A last line that nothing ends is not made again.
fn take_line(rt: &impl Print, replay: &mut Replay, line: Line) -> Result<(), Stop> {
    if !line.is_ended || replay.take(line.bytes) {
        return Ok(());
    }
    say_difference(rt, line)?;
    Err(Stop::Differs)
}

fn main(rt: HostRuntime) -> io::Result<()> {
    let mut replay = Replay::new();
    match each_nonempty_line(rt.stdin(), |line| take_line(&rt, &mut replay, line)) {
        Err(Stop::Failed(e)) => Err(e),
        Err(Stop::Differs) => Ok(()),
        Ok(()) => {
            println!(rt; "{}", replay.tally)?;
            replay.pairs.say(&rt)
        }
    }
}
