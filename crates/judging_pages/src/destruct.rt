// 11 destruct: P1 directory DES; P2 position. "PGT_ADDR, range, PGT_MAP unless .. a child, is there".
ghost use Rattle.std.specs.Prelude.{◌≡◌};
ghost use Rattle.state.specs.Read.{read};
ghost use Rattle.rules.specs.Calls.{destruct};

use crate::positions::{in_span, is_child};
use judging_numbers::arguments::directory_arg;
use reading::directories::{position_at, positions_in};
use words::actions::Action;
use words::capabilities::Position;
use words::fields::{Words, number_in_word};
use words::flag_bits::D_DES;
use words::numbers::Slot;
use words::refusals::Refusal;

pub fn judge_destruct(s: &[u8], t: Slot, w: Words) -> Result<Action, Refusal>
    ensures { result ≡ destruct (read s.now) t w }
{
    let d = directory_arg(s, t, number_in_word(w.p1), D_DES)?;
    let o = d.object;
    let i = w.p2;
    if positions_in(s, o) <= i {
        return Err(Refusal::PgtAddr);
    }
    if !in_span(d, i) {
        return Err(Refusal::CapFlag);
    }
    if !is_child(position_at(s, o, i)) {
        return Err(Refusal::PgtMap);
    }
    Ok(Action::SetPosition {
        directory: o,
        position: i,
        to: Position::Empty,
    })
}
