// A position of a directory from its 8 bytes: what it holds, the flags, and the frame or the child.
ghost use Rattle.std.specs.Prelude.{◌≡◌, ◌≤◌};
ghost use Rattle.state.specs.Read.{position_of};

use crate::bytes::{byte_at, word_at};
use words::capabilities::Position;
use words::layout::{CHILD, PAGE, POSITION_FLAGS_AT, POSITION_VALUE_AT};
use words::numbers::Slot;

// The position that starts at a byte of a part. Its first byte is a number of docs/LAYOUT.md.
#[tactic(auto, unfolding(state::specs::Read::position_of, state::specs::Read::position_from))]
pub fn position_of(p: &[u8], at: usize) -> Position
    requires { at ≤ 65000 }
    ensures { result ≡ position_of p.now at }
{
    let tag = byte_at(p, at);
    match tag {
        PAGE => Position::Page {
            frame: word_at(p, at + POSITION_VALUE_AT),
            flags: byte_at(p, at + POSITION_FLAGS_AT) as u32,
        },
        CHILD => Position::Child {
            object: Slot(byte_at(p, at + POSITION_VALUE_AT)),
            flags: byte_at(p, at + POSITION_FLAGS_AT) as u32,
        },
        _ => Position::Empty,
    }
}
