// 3 delegate: P1.D1 table ADD_DST; P2.D1 table ADD_SRC; P1.D0 place to; P2.D0 place from; P3 flags.
ghost use Rattle.std.specs.Prelude.{◌≡◌};
ghost use Rattle.state.specs.Read.{read};
ghost use Rattle.rules.specs.Calls.{delegate};

use crate::grants::grant_of;
use judging_numbers::arguments::table_arg;
use judging_places::places::{thawed_at, to_fill};
use words::actions::Action;
use words::fields::{Words, d0, number_in_d1};
use words::flag_bits::{T_ADD_DST, T_ADD_SRC};
use words::numbers::Slot;
use words::refusals::Refusal;

pub fn judge_delegate(s: &[u8], t: Slot, w: Words) -> Result<Action, Refusal>
    ensures { result ≡ delegate (read s.now) t w }
{
    let d = table_arg(s, t, number_in_d1(w.p1), T_ADD_DST)?;
    let o = table_arg(s, t, number_in_d1(w.p2), T_ADD_SRC)?;
    let p = to_fill(s, d, d0(w.p1))?;
    let e = d0(w.p2);
    let c = thawed_at(s, o, e)?;
    // the number of the source's place, by which the child names its parent
    let parent = 2 * (o.0 as u32) + e;
    let right = grant_of(c, parent, w)?;
    Ok(Action::Fill { at: p, right })
}
