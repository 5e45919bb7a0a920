// 4 freeze: C table FRZ; P1 place.
ghost use Rattle.std.specs.Prelude.{◌≡◌};
ghost use Rattle.state.specs.Read.{read};
ghost use Rattle.rules.specs.Calls.{freeze};

use judging_numbers::arguments::table_arg;
use judging_places::places::thawed_at;
use words::actions::{Action, Spot};
use words::fields::{Words, number_in_c};
use words::flag_bits::T_FRZ;
use words::numbers::Slot;
use words::refusals::Refusal;

pub fn judge_freeze(s: &[u8], t: Slot, w: Words) -> Result<Action, Refusal>
    ensures { result ≡ freeze (read s.now) t w }
{
    let c = table_arg(s, t, number_in_c(w), T_FRZ)?;
    thawed_at(s, c, w.p1)?;
    Ok(Action::Freeze {
        at: Spot {
            table: c,
            entry: w.p1,
        },
    })
}
