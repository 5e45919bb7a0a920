// A table in the part of the buffer that its slots are: its entries, and zeros behind the last where their number is odd.
ghost use Rattle.std.specs.Prelude.{◌≡◌, ◌*◌, ◌≤◌, length};
ghost use Rattle.audit_bytes.specs.Stands.{place_stands, starts, table_in};
ghost use Rattle.state.specs.Bytes.{memory_bytes};
ghost use Rattle.words.specs.Sizes.{entry_size, slot_size, slots_for};
ghost use Rattle.words.specs.Tests.{all_below};

use crate::places::place_stands;
use crate::zeros::zeros_in;
use words::layout::ENTRY_WORDS;
use words::sizes::ENTRY_SIZE;

// Slots are rounded up, so that a part may hold more than its n entries: it is no list of just these to walk.
fn places_stand(p: &[u8], n: usize) -> bool
    requires { entry_size * n ≤ length p.now }
    ensures { result ≡ all_below n (λ i. place_stands p.now (entry_size * i)) }
{
    (0..n).all(|i| place_stands(p, ENTRY_SIZE * i))
}

pub(crate) fn table_stands(p: &[u8], entries: u8) -> bool
    requires { length p.now ≡ slot_size * slots_for (entry_size * entries) }
    ensures { result ≡ starts (memory_bytes (table_in p.now entries)) p.now }
{
    let n = entries as usize;
    places_stand(p, n) && zeros_in(p, ENTRY_SIZE * n, ENTRY_WORDS * (n % 2))
}
