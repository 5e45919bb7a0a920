// What the check of a state walks: the slots that are used and the first slots of what stands there; and words and notes that are read
// where they are known to lie, so that no read is tested again.
//
// A state is lent as a slice whose length the contracts ask for, and not as `&[u8; STATE_LENGTH]`: what is lent may have any length
// (`audit::well_formed` asks nothing and tests it once), and the readers of `reading`, which get the same slice, take any.
#![tactic(auto)]

pub mod heads;
pub mod notes;
pub mod used;

ghost use Rattle.std.specs.Prelude.{◌≡◌, ◌+◌, ◌≤◌, length};
ghost use Rattle.state.specs.Read.{word_at};

// A word where the part has it: four bytes, the lowest first. `reading::bytes::word_at` is for an `at` that may lie past the end, and tests it.
pub fn word_in(s: &[u8], at: usize) -> u32
    requires { at + 4 ≤ length s.now }
    ensures { result ≡ word_at s.now at }
{
    u32::from_le_bytes([s[at], s[at + 1], s[at + 2], s[at + 3]])
}
