// 7 delete directory: C table DEL; P1 place. Then "PGT_HW (directory has a child or is one)".
ghost use Rattle.std.specs.Prelude.{◌≡◌};
ghost use Rattle.state.specs.Read.{read};
ghost use Rattle.rules.specs.Calls.{delete_directory};

use crate::hanging::{hangs_somewhere, has_child_directory};
use judging_deletions::deletions::directory_to_delete;
use judging_numbers::arguments::table_arg;
use words::actions::{Action, Spot};
use words::fields::{Words, number_in_c};
use words::flag_bits::T_DEL;
use words::numbers::Slot;
use words::refusals::Refusal;

pub fn judge_delete_directory(s: &[u8], t: Slot, w: Words) -> Result<Action, Refusal>
    ensures { result ≡ delete_directory (read s.now) t w }
{
    let c = table_arg(s, t, number_in_c(w), T_DEL)?;
    let o = directory_to_delete(s, c, w.p1)?;
    if has_child_directory(s, o) {
        return Err(Refusal::PgtHw);
    }
    if hangs_somewhere(s, o) {
        return Err(Refusal::PgtHw);
    }
    Ok(Action::Delete {
        at: Spot {
            table: c,
            entry: w.p1,
        },
        object: o,
    })
}
