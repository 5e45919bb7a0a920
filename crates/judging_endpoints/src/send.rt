// 18 send: P1 endpoint SND. −14 where the count is 2^32 − 1.
ghost use Rattle.std.specs.Prelude.{◌≡◌};
ghost use Rattle.state.specs.Read.{read};
ghost use Rattle.rules.specs.Calls.{send};

use judging_numbers::arguments::endpoint_arg;
use reading::endpoints::count_at;
use words::actions::Action;
use words::fields::{Words, number_in_word};
use words::flag_bits::E_SND;
use words::numbers::{Count, Slot};
use words::refusals::Refusal;
use words::sizes::FULL_COUNT;

pub fn judge_send(s: &[u8], t: Slot, w: Words) -> Result<Action, Refusal>
    ensures { result ≡ send (read s.now) t w }
{
    let e = endpoint_arg(s, t, number_in_word(w.p1), E_SND)?;
    let waiting = count_at(s, e).0;
    if waiting < FULL_COUNT {
        return Ok(Action::SetCount {
            endpoint: e,
            count: Count(waiting + 1),
            taken: Count(0),
        });
    }
    Err(Refusal::SivFull)
}
