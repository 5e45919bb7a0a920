// The twenty calls, for C: the export hands on what `kernel` answers.
ghost use Rattle.std.specs.Prelude.{◌≡◌};
ghost use Rattle.rules.specs.Buffer.{call_outcome};
ghost use Rattle.rules.specs.Cases.{four};

// The caller's slot and the four words N:C, P1, P2, P3.
#[unsafe(no_mangle)]
pub extern "C" fn kernel_call(s: &mut [u8], caller: u32, w0: u32, w1: u32, w2: u32, w3: u32) -> i32
    ensures { (record { reply = result; buffer = s.new }) ≡ call_outcome s.old caller (four w0 w1 w2 w3) }
{
    kernel::calls::kernel_call(s, caller, w0, w1, w2, w3)
}
