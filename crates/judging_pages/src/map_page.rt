// 8 map page: P1.D1 directory ADD_DST; P2.D1 directory ADD_SRC; P1.D0, P2.D0 positions; P3.D0 index; P3.D1 page flags.
ghost use Rattle.std.specs.Prelude.{true, ◌≡◌, ◌-◌, ◌<◌, ◌^◌, ◌≤◌};
ghost use Rattle.words.specs.Fields.{D0};
ghost use Rattle.state.specs.Read.{read};
ghost use Rattle.rules.specs.Calls.{map_page, size_at};
ghost use Rattle.rules.specs.WellFormed.{wf};
ghost use Rattle.judging_pages.specs.Mapping.{map_addressed, map_in_range};

use crate::pages::{frame_in, is_index};
use crate::positions::{as_page, in_span, is_empty};
use judging_numbers::arguments::directory_arg;
use reading::directories::{position_at, positions_in, shape_at};
use words::actions::Action;
use words::capabilities::{Position, Span};
use words::fields::{Words, d0, d1, number_in_d1};
use words::flag_bits::{D_ADD_DST, D_ADD_SRC};
use words::numbers::Slot;
use words::refusals::Refusal;

// "then ranges, target first (−5); PGT_HW if the source holds no page; PGT_MAP if the target is filled; PGT_PERM."
// The frame is a word on a well-formed state, where the source's page is a multiple of its size.
fn map_in_range(s: &[u8], d: Span, x: Span, w: Words) -> Result<Action, Refusal>
    requires { (wf (read s.now) ≡ true) × (size_at (read s.now) d ≤ size_at (read s.now) x) × (D0 w.p3 < 2 ^ (size_at (read s.now) x - size_at (read s.now) d)) }
    ensures { result ≡ map_in_range (read s.now) d x w }
{
    let to = d0(w.p1);
    let from = d0(w.p2);
    let index = d0(w.p3);
    let flags = d1(w.p3);
    if !in_span(d, to) {
        return Err(Refusal::CapFlag);
    }
    if !in_span(x, from) {
        return Err(Refusal::CapFlag);
    }
    let f = as_page(Refusal::PgtHw, position_at(s, x.object, from))?;
    let target = d.object;
    if !is_empty(position_at(s, target, to)) {
        return Err(Refusal::PgtMap);
    }
    if flags & f.flags != flags {
        return Err(Refusal::PgtPerm);
    }
    let g = shape_at(s, target);
    let frame = frame_in(f.frame, index, g.size);
    Ok(Action::SetPosition {
        directory: target,
        position: to,
        to: Position::Page { frame, flags },
    })
}

// "PGT_ADDR if the target's size order exceeds the source's, a position is past the end, or index ≥ 2^difference".
fn map_addressed(s: &[u8], d: Span, x: Span, w: Words) -> Result<Action, Refusal>
    requires { wf (read s.now) ≡ true }
    ensures { result ≡ map_addressed (read s.now) d x w }
{
    let to = d0(w.p1);
    let from = d0(w.p2);
    let index = d0(w.p3);
    let g = shape_at(s, d.object);
    let h = shape_at(s, x.object);
    if h.size < g.size {
        return Err(Refusal::PgtAddr);
    }
    if positions_in(s, d.object) <= to {
        return Err(Refusal::PgtAddr);
    }
    if positions_in(s, x.object) <= from {
        return Err(Refusal::PgtAddr);
    }
    if !is_index(index, h.size - g.size) {
        return Err(Refusal::PgtAddr);
    }
    map_in_range(s, d, x, w)
}

pub fn judge_map_page(s: &[u8], t: Slot, w: Words) -> Result<Action, Refusal>
    requires { wf (read s.now) ≡ true }
    ensures { result ≡ map_page (read s.now) t w }
{
    let d = directory_arg(s, t, number_in_d1(w.p1), D_ADD_DST)?;
    let x = directory_arg(s, t, number_in_d1(w.p2), D_ADD_SRC)?;
    map_addressed(s, d, x, w)
}
