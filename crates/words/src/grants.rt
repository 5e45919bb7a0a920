// Memory grants: "upper address = P3.D1 over N[15:6] and six zeros, lower = P3.D0 over C[15:6] and six zeros, flags = C[5:0]".
ghost use Rattle.std.specs.Prelude.{◌≡◌};
ghost use Rattle.words.specs.Grants.{pack, unpack};

use crate::calls::DELEGATE;
use crate::fields::HALF;
use crate::flag_bits::MEMORY_FLAGS;
use crate::numbers::KernelAddress;
use crate::refusals::Refusal;

// "six zeros": what a grant's addresses are multiples of. "flags above 63": how many sets of memory flags there are.
const GRANT_UNIT: u32 = 64;

const FLAG_SETS: u32 = MEMORY_FLAGS + 1;

#[derive(Clone, Copy)]
pub struct Grant {
    pub lower: KernelAddress,
    pub upper: KernelAddress,
    pub flags: u32,
}

// The two words that carry a grant: N:C and P3 of a delegation.
#[derive(Clone, Copy)]
pub struct Packed {
    pub nc: u32,
    pub p3: u32,
}

// "unpacking takes every pair of words"
pub fn unpack_grant(w: Packed) -> Grant
    ensures { result ≡ unpack w }
{
    let nc = w.nc;
    let p3 = w.p3;
    let lower = KernelAddress(p3 % HALF * HALF + nc % HALF / GRANT_UNIT * GRANT_UNIT);
    let upper = KernelAddress(p3 / HALF * HALF + nc / HALF / GRANT_UNIT * GRANT_UNIT);
    Grant {
        lower,
        upper,
        flags: nc % FLAG_SETS,
    }
}

// "Packing writes call number 3 and gives −5 for an address off 64 or flags above 63"
pub fn pack_grant(g: Grant) -> Result<Packed, Refusal>
    ensures { result ≡ pack g }
{
    let lower = g.lower;
    let upper = g.upper;
    let l = lower.0;
    let u = upper.0;
    let f = g.flags;
    if l % GRANT_UNIT != 0 {
        return Err(Refusal::CapFlag);
    }
    if u % GRANT_UNIT != 0 {
        return Err(Refusal::CapFlag);
    }
    if FLAG_SETS <= f {
        return Err(Refusal::CapFlag);
    }
    Ok(Packed {
        nc: (u % HALF + DELEGATE) * HALF + (l % HALF + f),
        p3: u / HALF * HALF + l / HALF,
    })
}
