// 10 construct: P1.D1 parent CON_PARENT; P1.D0 child CON_CHILD; P2 position; P3[5:0] page flags.
ghost use Rattle.std.specs.Prelude.{◌≡◌};
ghost use Rattle.state.specs.Read.{read};
ghost use Rattle.rules.specs.Calls.{construct};
ghost use Rattle.judging_pages.specs.Hanging.{hang_under};

use crate::positions::{in_span, is_empty};
use judging_numbers::arguments::directory_arg;
use reading::directories::{position_at, positions_in, shape_at};
use words::actions::Action;
use words::capabilities::{Position, Span};
use words::fields::{Words, number_in_d0, number_in_d1};
use words::flag_bits::{D_CON_CHILD, D_CON_PARENT, PAGE_FLAGS_END};
use words::numbers::Slot;
use words::refusals::Refusal;

// "PGT_ADDR if the position is past the end or the child's size order plus number order is not the parent's size order; then
// range; PGT_MAP if filled or the child is top." The sum is computed wide, so that it does not wrap.
fn hang_under(s: &[u8], p: Span, x: Span, w: Words) -> Result<Action, Refusal>
    ensures { result ≡ hang_under (read s.now) p x w }
{
    let i = w.p2;
    let parent = p.object;
    if positions_in(s, parent) <= i {
        return Err(Refusal::PgtAddr);
    }
    let child = x.object;
    let c = shape_at(s, child);
    let g = shape_at(s, parent);
    if c.size as u64 + c.number as u64 != g.size as u64 {
        return Err(Refusal::PgtAddr);
    }
    if !in_span(p, i) {
        return Err(Refusal::CapFlag);
    }
    if !is_empty(position_at(s, parent, i)) {
        return Err(Refusal::PgtMap);
    }
    if c.top {
        return Err(Refusal::PgtMap);
    }
    Ok(Action::SetPosition {
        directory: parent,
        position: i,
        to: Position::Child {
            object: child,
            flags: w.p3 % PAGE_FLAGS_END,
        },
    })
}

pub fn judge_construct(s: &[u8], t: Slot, w: Words) -> Result<Action, Refusal>
    ensures { result ≡ construct (read s.now) t w }
{
    let p = directory_arg(s, t, number_in_d1(w.p1), D_CON_PARENT)?;
    let x = directory_arg(s, t, number_in_d0(w.p1), D_CON_CHILD)?;
    hang_under(s, p, x, w)
}
