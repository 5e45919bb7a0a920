// Bytes into a file and out of one. No contract can say what a file holds.
ghost use Rattle.std.specs.Prelude.{◌≤◌, IfOk, length};

use intel_hex::marks::LONGEST_TEXT;
use std::fs::OpenFile;
use std::io::{ErrorKind, Read, Write};
use std::rt::Files;
use std::str::from_utf8;
use std::{fs, io};

// Why a file was not written or not read, each a row of what is printed.
#[derive(Clone, Copy)]
pub enum Trouble {
    NotWritten,
    NotRead,
    TooLong,
}

// Some file systems tell only when a file is brought to its disk that there was no room; a pipe or a device has no disk.
fn write_open<F: Write + OpenFile>(file: &mut F, text: &[u8]) -> io::Result<()> {
    file.write_all(text)?;
    match file.sync_all() {
        Err(e) if e.kind() == ErrorKind::InvalidInput => Ok(()),
        kept => kept,
    }
}

// The file is made or overwritten. A name that is not UTF-8 names no file.
pub(crate) fn write_file(rt: &impl Files, name: &[u8], text: &[u8]) -> Result<(), Trouble> {
    let path = from_utf8(name).map_err(|_| Trouble::NotWritten)?;
    let mut file = fs::create(rt, path).map_err(|_| Trouble::NotWritten)?;
    write_open(&mut file, text).map_err(|_| Trouble::NotWritten)
}

// Reads until the text is full or the file ends, and answers how many bytes were read. `firmware` has a function of this kind too: in a
// library its contract would have to determine the bytes that it lends (proofs/Tight.antt), and no contract says what a read gives.
fn read_full(file: &mut impl Read, text: &mut [u8]) -> io::Result<usize>
    ensures { IfOk result (λ n. n ≤ length text.new) }
{
    let mut n = 0;
    while n < text.len() {
        let more = file.read(&mut text[n..])?;
        if more == 0 {
            break;
        }
        n += more;
    }
    Ok(n)
}

// What the file holds, None where that is more than there is room for. Reading stops at the file's end and where there is no more room;
// one more read tells which it was, by no byte and by one.
fn read_open<'a>(file: &mut impl Read, text: &'a mut [u8]) -> io::Result<Option<&'a [u8]>> {
    let n = read_full(file, text)?;
    let mut one = [0u8; 1];
    let is_whole = file.read(&mut one)? == 0;
    Ok(is_whole.then_some(&text[..n]))
}

pub(crate) fn read_file<'a>(
    rt: &impl Files,
    name: &[u8],
    text: &'a mut [u8; LONGEST_TEXT],
) -> Result<&'a [u8], Trouble> {
    let path = from_utf8(name).map_err(|_| Trouble::NotRead)?;
    let mut file = fs::open(rt, path).map_err(|_| Trouble::NotRead)?;
    match read_open(&mut file, text) {
        Ok(Some(held)) => Ok(held),
        Ok(None) => Err(Trouble::TooLong),
        Err(_) => Err(Trouble::NotRead),
    }
}
