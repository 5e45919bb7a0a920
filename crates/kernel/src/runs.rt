// Calls and ticks one after the other, each on the buffer that those before it left: what shuts out a kernel that works on its
// first call only.
ghost use Rattle.std.specs.Prelude.{◌≡◌};
ghost use Rattle.rules.specs.Run.{happens};
ghost use Rattle.kernel.specs.Script.{event_from, run_result};

use crate::calls::kernel_call;
use crate::states::kernel_tick;

// The answers of functions that are lent more than a state, as specs/Script.antt has them.
const CUT_SCRIPT: i32 = -60;

pub(crate) const TOO_FEW_LENT: i32 = -61;

// The caller that stands for the clock: no slot has this number.
const THE_CLOCK: u32 = 0xFFFFFFFF;

// The words of an event in a script.
const EVENT_WORDS: usize = 5;

// One event: a tick where the caller is the clock, whatever the words; else a call.
fn happen(s: &mut [u8], caller: u32, w0: u32, w1: u32, w2: u32, w3: u32) -> i32
    ensures { (record { reply = result; buffer = s.new }) ≡ happens s.old (event_from caller w0 w1 w2 w3) }
{
    if caller == THE_CLOCK {
        return kernel_tick(s);
    }
    kernel_call(s, caller, w0, w1, w2, w3)
}

// A script has five words an event: the caller and the four words. The answers go into `answers`, in order; what is behind them
// stays. −60: the script is cut inside an event. −61: fewer answers than events are lent. A refusal changes nothing.
pub fn kernel_run(s: &mut [u8], script: &[u32], answers: &mut [i32]) -> i32
    ensures { (record { reply = result; buffer = s.new; answers = answers.new }) ≡ run_result s.old script.now answers.old }
{
    let n = script.len() / EVENT_WORDS;
    if script.len() % EVENT_WORDS != 0 {
        return CUT_SCRIPT;
    }
    if answers.len() < n {
        return TOO_FEW_LENT;
    }
    // by places: an event is five words of the script and one answer, and the contract tells both by the event's number
    for i in 0..n {
        let at = EVENT_WORDS * i;
        answers[i] = happen(
            s,
            script[at],
            script[at + 1],
            script[at + 2],
            script[at + 3],
            script[at + 4],
        );
    }
    0
}
