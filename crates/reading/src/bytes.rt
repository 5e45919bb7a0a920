// Bytes and words of a buffer or of a part of one, 0 past its end; and the parts that are handed on.
ghost use Rattle.std.specs.Prelude.{◌≡◌, ◌*◌, ◌≤◌, get_or, take, drop};
ghost use Rattle.words.specs.Sizes.{slot_size};
ghost use Rattle.state.specs.Read.{word_at};

use words::layout::WORD_SIZE;
use words::numbers::Slot;
use words::sizes::SLOT_SIZE;

pub(crate) fn byte_at(s: &[u8], at: usize) -> u8
    ensures { result ≡ get_or s.now at 0 }
{
    s.get(at).copied().unwrap_or(0)
}

fn joined(a: u8, b: u8, c: u8, d: u8) -> u32
    ensures { result ≡ Rattle.state.specs.Read.joined a b c d }
{
    u32::from_le_bytes([a, b, c, d])
}

// Four bytes, the lowest first. Where all four lie in the buffer, one test serves for them.
#[tactic(auto, unfolding(state::specs::Read::word_at))]
pub fn word_at(s: &[u8], at: usize) -> u32
    requires { at ≤ 65535 }
    ensures { result ≡ word_at s.now at }
{
    if at + WORD_SIZE <= s.len() {
        return joined(s[at], s[at + 1], s[at + 2], s[at + 3]);
    }
    joined(
        byte_at(s, at),
        byte_at(s, at + 1),
        byte_at(s, at + 2),
        byte_at(s, at + 3),
    )
}

// A mark is any word but 0.
pub(crate) fn marked(w: u32) -> bool
    ensures { result ≡ Rattle.state.specs.Read.marked w }
{
    w != 0
}

// "hands on just its slots, a part from the middle of the lent state": n slots from slot k on, as far as the buffer has them.
pub fn slots_from(s: &[u8], k: Slot, n: u16) -> &[u8]
    ensures { result.now ≡ take (slot_size * n) (drop (slot_size * k.0) s.now) }
{
    let a = SLOT_SIZE * (k.0 as usize);
    let e = a + SLOT_SIZE * (n as usize);
    &s[a.min(s.len())..e.min(s.len())]
}
