// The lines of an input, however its bytes arrive, each handed on as soon as it is read.
#![tactic(auto)]

ghost use Rattle.std.specs.Prelude.{◌≡◌, IsTrue, length};
ghost use Rattle.lines.specs.declared.gather.TheConstants.{LINE_LENGTH};

pub mod fields;
pub mod stop;

use lines::gather::{LINE_LENGTH, first, gather};
use std::io;
use std::io::Read;

// How much is read at a time.
const CHUNK_LENGTH: usize = 4096;

// A line: its first 1,024 bytes, whether it has more, its number from 1, and whether a line feed ends it, as each but the last.
#[derive(Clone, Copy)]
pub struct Line<'a> {
    pub bytes: &'a [u8],
    pub is_longer: bool,
    pub number: u64,
    pub is_ended: bool,
    ghost full: { IsTrue is_longer → length bytes.now ≡ LINE_LENGTH },
}

// The line that is being read: how many bytes it has, 1,025 standing for any more than 1,024, and its number. LEAST is how many bytes a line
// has at least that is handed on: with 0 an empty one is, with 1 it is counted and passed over.
#[derive(Clone, Copy)]
struct Progress<const LEAST: usize> {
    length: usize,
    number: u64,
}

impl<const LEAST: usize> Progress<LEAST> {
    fn line(self, buffer: &[u8; LINE_LENGTH], is_ended: bool) -> Line<'_> {
        Line {
            bytes: first(buffer, self.length),
            is_longer: LINE_LENGTH < self.length,
            number: self.number,
            is_ended,
        }
    }
}

// Never inlined: a function of its own has the buffer and the bytes in registers, in a loop that is gone through for each byte.
#[inline(never)]
fn take_bytes<E, F: FnMut(Line) -> Result<(), E>, const LEAST: usize>(
    bytes: &[u8],
    buffer: &mut [u8; LINE_LENGTH],
    begun: Progress<LEAST>,
    visit: &mut F,
) -> Result<Progress<LEAST>, E>
    requires { F.IsAlwaysCallable visit.old }
    ensures { F.IsAlwaysCallable visit.new }
{
    let mut p = begun;
    for &byte in bytes {
        match gather(buffer, p.length, byte) {
            Some(length) => p.length = length,
            None => {
                if LEAST <= p.length {
                    visit(p.line(buffer, true))?;
                }
                p = Progress {
                    length: 0,
                    number: p.number.wrapping_add(1),
                };
            }
        }
    }
    Ok(p)
}

fn take_all<R: Read, E: From<io::Error>, F: FnMut(Line) -> Result<(), E>, const LEAST: usize>(
    input: &mut R,
    chunk: &mut [u8; CHUNK_LENGTH],
    buffer: &mut [u8; LINE_LENGTH],
    visit: &mut F,
) -> Result<(), E>
    requires { F.IsAlwaysCallable visit.old }
{
    let mut p = Progress::<LEAST> {
        length: 0,
        number: 1,
    };
    // A proved loop has to end, and nothing says that the input does: the reads are counted up to a number that no run reaches.
    for _ in 0..u64::MAX {
        let n = input.read(chunk)?;
        if n == 0 {
            break;
        }
        p = take_bytes(&chunk[..n], buffer, p, visit)?;
    }
    if 0 < p.length {
        visit(p.line(buffer, false))?;
    }
    Ok(())
}

// Calls the function on each line up to the first error. What is read is handed on before more is waited for.
pub fn each_line<R: Read + Drop, E: From<io::Error>, F: FnMut(Line) -> Result<(), E> + Drop>(
    mut input: R,
    mut visit: F,
) -> Result<(), E>
    requires { F.IsAlwaysCallable visit }
{
    let mut chunk = [0u8; CHUNK_LENGTH];
    let mut buffer = [0u8; LINE_LENGTH];
    take_all::<R, E, F, 0>(&mut input, &mut chunk, &mut buffer, &mut visit)
}

// As `each_line`, on each line that has a byte: an empty one, which says nothing, is counted and passed over.
pub fn each_nonempty_line<
    R: Read + Drop,
    E: From<io::Error>,
    F: FnMut(Line) -> Result<(), E> + Drop,
>(mut input: R, mut visit: F) -> Result<(), E>
    requires { F.IsAlwaysCallable visit }
{
    let mut chunk = [0u8; CHUNK_LENGTH];
    let mut buffer = [0u8; LINE_LENGTH];
    take_all::<R, E, F, 1>(&mut input, &mut chunk, &mut buffer, &mut visit)
}
