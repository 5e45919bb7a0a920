// What a call asks of a position, and of the range of a right to its directory. The position is classified here, so that a
// judge takes the page by `?`.
ghost use Rattle.std.specs.Prelude.{◌≡◌};
ghost use Rattle.rules.specs.Calls.{as_page, in_span, is_child, is_empty};

use words::capabilities::{Frame, Position, Span};
use words::refusals::Refusal;

// "lowest position .., highest .., both included"
pub(crate) fn in_span(d: Span, i: u32) -> bool
    ensures { result ≡ in_span d i }
{
    if i < d.low {
        return false;
    }
    i <= d.high
}

pub(crate) fn is_empty(x: Position) -> bool
    ensures { result ≡ is_empty x }
{
    matches!(x, Position::Empty)
}

pub fn is_child(x: Position) -> bool
    ensures { result ≡ is_child x }
{
    matches!(x, Position::Child { .. })
}

// The page at a position, or the refusal that the call gives where there is none.
#[tactic(auto, unfolding(rules::specs::Calls::as_page))]
pub(crate) fn as_page(why: Refusal, x: Position) -> Result<Frame, Refusal>
    ensures { result ≡ as_page why x }
{
    match x {
        Position::Page { frame, flags } => Ok(Frame { frame, flags }),
        Position::Empty | Position::Child { .. } => Err(why),
    }
}
