// "A creation's address: CAP_FLAG if misaligned or not wholly in the memory right, then KOTBL": the first of the slots that it needs.
ghost use Rattle.std.specs.Prelude.{◌≡◌, ◌+◌, ◌*◌, ◌%◌, ◌≤◌, nat_eq, nat_le};
ghost use Rattle.words.specs.Sizes.{kernel_end, kernel_start, slot_size};
ghost use Rattle.words.specs.Tests.{◌&◌};
ghost use Rattle.state.specs.Read.{read};
ghost use Rattle.rules.specs.Addresses.{address_arg};

use reading::notes::all_free;
use words::capabilities::Stretch;
use words::numbers::{KernelAddress, Slot};
use words::refusals::Refusal;
use words::sizes::{KERNEL_START, SLOT_SIZE_U32, SLOT_SIZE_U64};

// "the upper is excluded"; the end is computed wide, so that it does not wrap.
fn lies_in(m: Stretch, a: KernelAddress, n: u32) -> bool
    ensures { result ≡ (nat_eq (a.0 % slot_size) 0 & nat_le m.low.0 a.0 & nat_le (a.0 + slot_size * n) m.high.0) }
{
    let at = a.0;
    at % SLOT_SIZE_U32 == 0
        && m.low.0 <= at
        && (at as u64) + SLOT_SIZE_U64 * (n as u64) <= m.high.0 as u64
}

// What a memory right of a well-formed state shows: it lies in kernel memory, so that an address in it has a slot.
pub fn address_arg(s: &[u8], m: Stretch, a: KernelAddress, n: u32) -> Result<Slot, Refusal>
    requires kernel_memory { (kernel_start ≤ m.low.0) × (m.high.0 ≤ kernel_end) }
    requires few_slots { (1 ≤ n) × (n ≤ 64) }
    ensures { result ≡ address_arg (read s.now) m a n }
{
    if !lies_in(m, a, n) {
        return Err(Refusal::CapFlag);
    }
    let k = Slot(((a.0 - KERNEL_START) / SLOT_SIZE_U32) as u8);
    if !all_free(s, k, n) {
        return Err(Refusal::CapKotbl);
    }
    Ok(k)
}
