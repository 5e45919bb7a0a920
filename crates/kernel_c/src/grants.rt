// Packing and unpacking of memory grants, for C: the exports hand on what `kernel` answers.
ghost use Rattle.std.specs.Prelude.{◌≡◌};
ghost use Rattle.kernel.specs.Grants.{pack_result, unpack_result};

// N:C and P3 go into the first two of the lent words. −61: fewer than two are lent. −5: an address off 64, or flags above 63.
#[unsafe(no_mangle)]
pub extern "C" fn kernel_pack(lower: u32, upper: u32, flags: u32, words: &mut [u32]) -> i32
    ensures { (record { reply = result; words = words.new }) ≡ pack_result lower upper flags words.old }
{
    kernel::grants::kernel_pack(lower, upper, flags, words)
}

// Lower address, upper address (excluded) and flags go into the first three of the lent words. −61: fewer than three are lent.
#[unsafe(no_mangle)]
pub extern "C" fn kernel_unpack(nc: u32, p3: u32, words: &mut [u32]) -> i32
    ensures { (record { reply = result; words = words.new }) ≡ unpack_result nc p3 words.old }
{
    kernel::grants::kernel_unpack(nc, p3, words)
}
