// Packing and unpacking of memory grants for callers that lend the words: the two words N:C and P3 of a delegation, and the three
// values that they carry.
ghost use Rattle.std.specs.Prelude.{◌≡◌};
ghost use Rattle.kernel.specs.Grants.{pack_result, unpack_result};

use crate::runs::TOO_FEW_LENT;
use words::grants::{Grant, Packed, pack_grant, unpack_grant};
use words::numbers::KernelAddress;
use words::refusals::refusal_number;

// N:C and P3 go into the first two of the lent words; what is behind them stays. −61: fewer than two are lent. −5: an address off 64,
// or flags above 63. A refusal changes nothing.
pub fn kernel_pack(lower: u32, upper: u32, flags: u32, words: &mut [u32]) -> i32
    ensures { (record { reply = result; words = words.new }) ≡ pack_result lower upper flags words.old }
{
    if words.len() < 2 {
        return TOO_FEW_LENT;
    }
    let packed = pack_grant(Grant {
        lower: KernelAddress(lower),
        upper: KernelAddress(upper),
        flags,
    });
    match packed {
        Ok(w) => {
            words[0] = w.nc;
            words[1] = w.p3;
            0
        }
        Err(r) => refusal_number(r),
    }
}

// Lower address, upper address (excluded) and flags go into the first three of the lent words; what is behind them stays. −61: fewer
// than three are lent, and nothing changes.
pub fn kernel_unpack(nc: u32, p3: u32, words: &mut [u32]) -> i32
    ensures { (record { reply = result; words = words.new }) ≡ unpack_result nc p3 words.old }
{
    if words.len() < 3 {
        return TOO_FEW_LENT;
    }
    let g = unpack_grant(Packed { nc, p3 });
    words[0] = g.lower.0;
    words[1] = g.upper.0;
    words[2] = g.flags;
    0
}
