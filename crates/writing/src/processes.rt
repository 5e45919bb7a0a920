// The two words of a process: the table and the directory that it names. Each writer is one store, which a shared function would not shorten.
ghost use Rattle.std.specs.Prelude.{◌≡◌, ◌+◌, ◌*◌, ◌≤◌, length};
ghost use Rattle.words.specs.Sizes.{slot_size};
ghost use Rattle.state.specs.State.{splice};
ghost use Rattle.state.specs.Bytes.{le32};

use crate::bytes::put_word;
use words::layout::DIRECTORY_NAMED_AT;
use words::numbers::Slot;
use words::sizes::SLOT_SIZE;

pub fn store_table_named(s: &mut [u8], p: Slot, t: Slot)
    requires { slot_size * p.0 + 4 ≤ length s.old }
    ensures { s.new ≡ splice (slot_size * p.0) (le32 t.0) s.old }
{
    put_word(s, SLOT_SIZE * (p.0 as usize), t.0 as u32);
}

pub fn store_directory_named(s: &mut [u8], p: Slot, d: Slot)
    requires { slot_size * p.0 + 8 ≤ length s.old }
    ensures { s.new ≡ splice (slot_size * p.0 + 4) (le32 d.0) s.old }
{
    put_word(
        s,
        SLOT_SIZE * (p.0 as usize) + DIRECTORY_NAMED_AT,
        d.0 as u32,
    );
}
