// Zeros where the caller has shown that they lie in the slice. No word ends the search: all are joined and tested once, which a
// compiler does many words at a time.
ghost use Rattle.std.specs.Prelude.{◌≡◌, ◌+◌, ◌*◌, ◌≤◌, length};
ghost use Rattle.audit_bytes.specs.Clean.{zero_words};

use audit_entries::word_in;
use words::layout::WORD_SIZE;

// Whether n words from a byte on are zero.
pub(crate) fn zeros_in(s: &[u8], at: usize, n: usize) -> bool
    requires { at + 4 * n ≤ length s.now }
    ensures { result ≡ zero_words s.now at n }
{
    let mut seen: u32 = 0;
    for i in 0..n {
        seen |= word_in(s, at + WORD_SIZE * i);
    }
    seen == 0
}
