// Making, ticking and checking a state, for C: the exports hand on what `kernel` answers.
ghost use Rattle.std.specs.Prelude.{◌≡◌};
ghost use Rattle.rules.specs.Buffer.{sound, boot_outcome, tick_outcome};

// −19 for a wrong length, and the bytes stay; else 0 and the boot state, whatever was there.
#[unsafe(no_mangle)]
pub extern "C" fn kernel_boot(s: &mut [u8]) -> i32
    ensures { (record { reply = result; buffer = s.new }) ≡ boot_outcome s.old }
{
    kernel::states::kernel_boot(s)
}

// One tick of the clock. −19 as a call would.
#[unsafe(no_mangle)]
pub extern "C" fn kernel_tick(s: &mut [u8]) -> i32
    ensures { (record { reply = result; buffer = s.new }) ≡ tick_outcome s.old }
{
    kernel::states::kernel_tick(s)
}

// Yes exactly when −19 would not be given.
#[unsafe(no_mangle)]
pub extern "C" fn kernel_check(s: &[u8]) -> bool
    ensures { result ≡ sound s.now }
{
    kernel::states::kernel_check(s)
}
