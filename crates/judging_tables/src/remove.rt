// 5 remove: C table REM; P1 place.
ghost use Rattle.std.specs.Prelude.{◌≡◌};
ghost use Rattle.state.specs.Read.{read};
ghost use Rattle.rules.specs.Calls.{remove};

use judging_deletions::removals::to_remove;
use judging_numbers::arguments::table_arg;
use words::actions::Action;
use words::fields::{Words, number_in_c};
use words::flag_bits::T_REM;
use words::numbers::Slot;
use words::refusals::Refusal;

pub fn judge_remove(s: &[u8], t: Slot, w: Words) -> Result<Action, Refusal>
    ensures { result ≡ remove (read s.now) t w }
{
    let c = table_arg(s, t, number_in_c(w), T_REM)?;
    let p = to_remove(s, c, w.p1)?;
    Ok(Action::Remove { at: p })
}
