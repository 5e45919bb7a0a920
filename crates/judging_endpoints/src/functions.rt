// 20 function: C function; P1.D0 number. "outside the range is −5, any other but 0 is −4. Function 0 answers clock mod 2^31".
ghost use Rattle.std.specs.Prelude.{◌≡◌};
ghost use Rattle.state.specs.Read.{read};
ghost use Rattle.rules.specs.Calls.{function};

use judging_numbers::kinds::as_function;
use judging_numbers::lookups::look_up;
use reading::clock::clock;
use words::actions::Action;
use words::fields::{Words, d0, number_in_c};
use words::numbers::Slot;
use words::refusals::Refusal;
use words::sizes::ANSWER_END;

pub fn judge_function(s: &[u8], t: Slot, w: Words) -> Result<Action, Refusal>
    ensures { result ≡ function (read s.now) t w }
{
    let c = look_up(s, t, number_in_c(w))?;
    let f = as_function(c.kind)?;
    let n = d0(w.p1);
    if n < f.low {
        return Err(Refusal::CapFlag);
    }
    if f.high < n {
        return Err(Refusal::CapFlag);
    }
    if n != 0 {
        return Err(Refusal::CapNull);
    }
    Ok(Action::Answer(clock(s) % ANSWER_END))
}
