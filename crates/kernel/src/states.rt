// Making, ticking and checking a state.
ghost use Rattle.std.specs.Prelude.{◌≡◌};
ghost use Rattle.rules.specs.Buffer.{sound, boot_outcome, tick_outcome};

use audit::well_formed;
use boot::store_boot;
use reading::clock::clock;
use words::refusals::{Refusal, refusal_number};
use words::sizes::STATE_LENGTH;
use writing::clock::store_clock;

// "Boot refuses only a wrong length": −19, and the bytes stay; else 0 and the boot state, whatever was there.
pub fn kernel_boot(s: &mut [u8]) -> i32
    ensures { (record { reply = result; buffer = s.new }) ≡ boot_outcome s.old }
{
    if s.len() != STATE_LENGTH {
        return refusal_number(Refusal::BadState);
    }
    store_boot(s);
    0
}

// "a tick adds 1 mod 2^32": a wrapping add. −19 as a call would.
pub fn kernel_tick(s: &mut [u8]) -> i32
    ensures { (record { reply = result; buffer = s.new }) ≡ tick_outcome s.old }
{
    if !well_formed(s) {
        return refusal_number(Refusal::BadState);
    }
    let c = clock(s);
    store_clock(s, c.wrapping_add(1));
    0
}

// "the check says yes exactly when −19 would not be given"
pub fn kernel_check(s: &[u8]) -> bool
    ensures { result ≡ sound s.now }
{
    well_formed(s)
}
