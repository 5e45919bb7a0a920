// 9 remove page: P1 directory REM; P2 position. "PGT_ADDR, range, PGT_MAP unless a page .. is there". Destruct
// goes the same way to another flag and test: each is its rule, `remove_page` and `destruct`, line by line.
ghost use Rattle.std.specs.Prelude.{◌≡◌};
ghost use Rattle.state.specs.Read.{read};
ghost use Rattle.rules.specs.Calls.{remove_page};

use crate::positions::{as_page, in_span};
use judging_numbers::arguments::directory_arg;
use reading::directories::{position_at, positions_in};
use words::actions::Action;
use words::capabilities::Position;
use words::fields::{Words, number_in_word};
use words::flag_bits::D_REM;
use words::numbers::Slot;
use words::refusals::Refusal;

pub fn judge_remove_page(s: &[u8], t: Slot, w: Words) -> Result<Action, Refusal>
    ensures { result ≡ remove_page (read s.now) t w }
{
    let d = directory_arg(s, t, number_in_word(w.p1), D_REM)?;
    let o = d.object;
    let i = w.p2;
    if positions_in(s, o) <= i {
        return Err(Refusal::PgtAddr);
    }
    if !in_span(d, i) {
        return Err(Refusal::CapFlag);
    }
    as_page(Refusal::PgtMap, position_at(s, o, i))?;
    Ok(Action::SetPosition {
        directory: o,
        position: i,
        to: Position::Empty,
    })
}
