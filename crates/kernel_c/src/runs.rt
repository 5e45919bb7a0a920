// Calls and ticks one after the other, for C: the export hands on what `kernel` answers.
ghost use Rattle.std.specs.Prelude.{◌≡◌};
ghost use Rattle.kernel.specs.Script.{run_result};

// A script has five words an event: the caller and the four words. The answers go into `answers`, in order. −60: the script is cut
// inside an event. −61: fewer answers than events are lent.
#[unsafe(no_mangle)]
pub extern "C" fn kernel_run(s: &mut [u8], script: &[u32], answers: &mut [i32]) -> i32
    ensures { (record { reply = result; buffer = s.new; answers = answers.new }) ≡ run_result s.old script.now answers.old }
{
    kernel::runs::kernel_run(s, script, answers)
}
