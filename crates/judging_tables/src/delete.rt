// 2 delete table: C table DEL; P1 place. −6 for "table to delete not empty".
ghost use Rattle.std.specs.Prelude.{◌≡◌};
ghost use Rattle.state.specs.Read.{read};
ghost use Rattle.rules.specs.Calls.{delete_table};

use crate::empty::is_empty_table;
use judging_deletions::deletions::table_to_delete;
use judging_numbers::arguments::table_arg;
use words::actions::{Action, Spot};
use words::fields::{Words, number_in_c};
use words::flag_bits::T_DEL;
use words::numbers::Slot;
use words::refusals::Refusal;

pub fn judge_delete_table(s: &[u8], t: Slot, w: Words) -> Result<Action, Refusal>
    ensures { result ≡ delete_table (read s.now) t w }
{
    let c = table_arg(s, t, number_in_c(w), T_DEL)?;
    let o = table_to_delete(s, c, w.p1)?;
    if !is_empty_table(s, o) {
        return Err(Refusal::CapExist);
    }
    Ok(Action::Delete {
        at: Spot {
            table: c,
            entry: w.p1,
        },
        object: o,
    })
}
