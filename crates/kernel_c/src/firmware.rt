// A state as Intel HEX, for C: the exports hand on what `kernel` answers.
ghost use Rattle.std.specs.Prelude.{◌≡◌};
ghost use Rattle.intel_hex.specs.Outcomes.{read_outcome, write_outcome};
ghost use Rattle.intel_hex.specs.Reading.{taken_of};

// Reads a text into the state. −19, or −30 to −33 for the text's first faulty line; a refusal changes nothing.
#[unsafe(no_mangle)]
pub extern "C" fn kernel_read_hex(text: &[u8], s: &mut [u8]) -> i32
    ensures { (record { reply = result; buffer = s.new }) ≡ read_outcome text.now s.old }
{
    kernel::firmware::kernel_read_hex(text, s)
}

// How many lines of a text are taken before its first faulty one.
#[unsafe(no_mangle)]
pub extern "C" fn kernel_hex_lines(text: &[u8]) -> usize
    ensures { result ≡ taken_of text.now }
{
    kernel::firmware::kernel_hex_lines(text)
}

// Writes the state's text into the first 48,076 of the lent bytes. −19, or −34 for fewer; a refusal changes nothing.
#[unsafe(no_mangle)]
pub extern "C" fn kernel_write_hex(s: &[u8], text: &mut [u8]) -> i32
    ensures { (record { reply = result; text = text.new }) ≡ write_outcome s.now text.old }
{
    kernel::firmware::kernel_write_hex(s, text)
}
