// A directory in the part of the buffer that its slots are: the header, the positions, and zeros behind the last.
ghost use Rattle.std.specs.Prelude.{◌≡◌, ◌+◌, ◌*◌, ◌≤◌, length};
ghost use Rattle.audit_bytes.specs.Clean.{position_clean};
ghost use Rattle.audit_bytes.specs.Stands.{directory_in, position_stands, starts};
ghost use Rattle.state.specs.Bytes.{memory_bytes};
ghost use Rattle.words.specs.Sizes.{header_size, position_size, slot_size, slots_for};
ghost use Rattle.words.specs.Tests.{all_below};

use crate::zeros::zeros_in;
use audit_entries::word_in;
use words::fields::{BYTE, HALF};
use words::layout::{
    CHILD, HEADER_SPARE_AT, HEADER_SPARE_WORDS, PAGE, POSITION_VALUE_AT, TOP_AT, WORD_SIZE,
};
use words::sizes::{HEADER_SIZE, POSITION_SIZE, SLOT_COUNT_U32};

// By the tag, the lowest byte of its first word and the layout's number (docs/LAYOUT.md): a page has flags and any frame, a child flags and a slot, and what is empty is zero.
fn position_clean(first: u32, second: u32) -> bool
    ensures { result ≡ position_clean first second }
{
    match (first % BYTE) as u8 {
        PAGE => first < HALF,
        CHILD => first < HALF && second < SLOT_COUNT_U32,
        _ => first == 0 && second == 0,
    }
}

fn position_stands(p: &[u8], at: usize) -> bool
    requires { at + position_size ≤ length p.now }
    ensures { result ≡ position_stands p.now at }
{
    position_clean(word_in(p, at), word_in(p, at + POSITION_VALUE_AT))
}

// Slots are rounded up, so that a part may hold more than its n positions: it is no list of just these to walk.
fn positions_stand(p: &[u8], n: usize) -> bool
    requires { header_size + position_size * n ≤ length p.now }
    ensures { result ≡ all_below n (λ i. position_stands p.now (header_size + position_size * i)) }
{
    (0..n).all(|i| position_stands(p, HEADER_SIZE + POSITION_SIZE * i))
}

// The top mark is 0 or 1, and five words of the header are not used.
pub(crate) fn directory_stands(p: &[u8], positions: u32) -> bool
    requires { length p.now ≡ slot_size * slots_for (header_size + position_size * positions) }
    ensures { result ≡ starts (memory_bytes (directory_in p.now positions)) p.now }
{
    let n = positions as usize;
    let own = HEADER_SIZE + POSITION_SIZE * n;
    word_in(p, TOP_AT) <= 1
        && zeros_in(p, HEADER_SPARE_AT, HEADER_SPARE_WORDS)
        && positions_stand(p, n)
        && zeros_in(p, own, (p.len() - own) / WORD_SIZE)
}
