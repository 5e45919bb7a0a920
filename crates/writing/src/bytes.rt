// Words of four bytes, the lowest first: one, a list of them over a whole part, and one of them over a whole part.
ghost use Rattle.std.specs.Prelude.{◌≡◌, ◌+◌, ◌*◌, ◌≤◌, length, replicate};
ghost use Rattle.state.specs.State.{splice};
ghost use Rattle.state.specs.Bytes.{le32, words_bytes};

use words::layout::WORD_SIZE;

pub(crate) fn put_word(s: &mut [u8], at: usize, v: u32)
    requires { at + 4 ≤ length s.old }
    ensures { s.new ≡ splice at (le32 v) s.old }
{
    s[at..at + WORD_SIZE].copy_from_slice(&v.to_le_bytes());
}

// The words over the whole part. By an index, since `as_chunks_mut` says nothing of what the slice ends as.
fn put_words(part: &mut [u8], ws: &[u32])
    requires { length part.old ≡ 4 * length ws.now }
    ensures { part.new ≡ words_bytes ws.now }
{
    for (i, w) in ws.iter().enumerate() {
        put_word(part, i * WORD_SIZE, *w);
    }
}

// The word v, n times; by an index, as `put_words`.
pub fn put_run(part: &mut [u8], n: usize, v: u32)
    requires { length part.old ≡ 4 * n }
    ensures { part.new ≡ words_bytes (replicate n v) }
{
    for i in 0..n {
        put_word(part, i * WORD_SIZE, v);
    }
}

// Words from a byte of the buffer on: the part is lent on.
pub(crate) fn store_words(s: &mut [u8], at: usize, ws: &[u32])
    requires { at + 4 * length ws.now ≤ length s.old }
    ensures { s.new ≡ splice at (words_bytes ws.now) s.old }
{
    let e = at + WORD_SIZE * ws.len();
    put_words(&mut s[at..e], ws);
}
