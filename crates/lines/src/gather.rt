// A line gathered byte by byte in a buffer of fixed length, however its bytes arrive.
ghost use Rattle.std.specs.Prelude.{◌≡◌, length, take};
ghost use Rattle.lines.specs.Gather.{gathered, stored};

// "Lines of more than 1,024 bytes are refused": how long a line may be, and the length that stands for any longer one.
pub const LINE_LENGTH: usize = 1024;

// `gathered` of the specs gives 1,025 for every longer line, so it stays a length and no kind of its own.
const LONGER: usize = LINE_LENGTH + 1;

// The byte after the `length` bytes that the buffer has of the line: how many it has then, 1,025 standing for any more than 1,024;
// None where the byte ends the line.
pub fn gather(line: &mut [u8; LINE_LENGTH], length: usize, byte: u8) -> Option<usize>
    ensures value { result ≡ gathered length byte }
    ensures stored { line.new ≡ stored line.old length byte }
{
    if byte == b'\n' {
        return None;
    }
    if length < LINE_LENGTH {
        line[length] = byte;
        return Some(length + 1);
    }
    Some(LONGER)
}

// The first n bytes; all of them where there are not so many.
pub fn first(text: &[u8], n: usize) -> &[u8]
    ensures { result.now ≡ take n text.now }
{
    &text[..n.min(text.len())]
}
