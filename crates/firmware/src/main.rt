// Whole texts of a state. With nothing on standard input it prints the boot state's text; else it reads a text there and prints the
// text of the state that this gives, in the one form that is written, or the refusal and the line at fault.
#![tactic(auto)]

ghost use Rattle.std.specs.Prelude.{◌≤◌, IfOk, length};

use intel_hex::marks::{LONGEST_TEXT, TEXT_LENGTH};
use kernel::firmware::{kernel_hex_lines, kernel_read_hex, kernel_write_hex};
use kernel::states::kernel_boot;
use lines::gather::first;
use std::io::{Read, Result};
use words::sizes::STATE_LENGTH;

// `line` is the one at fault; a state that is not well formed has none.
fn say_refusal(rt: &impl Print, answer: i32, line: u64) -> Result<()> {
    match answer {
        -30 | -31 | -32 | -33 => println!(rt; "{answer} line {line}"),
        _ => println!(rt; "-19"),
    }
}

fn write_state(
    rt: &impl Print,
    s: &[u8; STATE_LENGTH],
    text: &mut [u8; TEXT_LENGTH],
) -> Result<()> {
    match kernel_write_hex(s, text) {
        0 => rt.write_all(text),
        answer => say_refusal(rt, answer, 0),
    }
}

fn say_state(rt: &impl Print, s: &[u8; STATE_LENGTH]) -> Result<()> {
    let mut text = [0u8; TEXT_LENGTH];
    write_state(rt, s, &mut text)
}

fn say_boot(rt: &impl Print) -> Result<()> {
    let mut s = [0u8; STATE_LENGTH];
    kernel_boot(&mut s);
    say_state(rt, &s)
}

// The line behind those that are taken is the one at fault.
fn say_anew(rt: &impl Print, text: &[u8]) -> Result<()> {
    let mut s = [0u8; STATE_LENGTH];
    match kernel_read_hex(text, &mut s) {
        0 => say_state(rt, &s),
        answer => say_refusal(rt, answer, (kernel_hex_lines(text) as u64).wrapping_add(1)),
    }
}

fn goes_on(input: &mut impl Read) -> Result<bool> {
    let mut one = [0u8; 1];
    Ok(0 < input.read(&mut one)?)
}

// Reads until the text is full or the input ends, and answers how many bytes were read. The console has a function of this kind too: in
// a library its contract would have to determine the bytes that it lends (proofs/Tight.antt), and no contract says what a read gives.
fn read_full(input: &mut impl Read, text: &mut [u8]) -> Result<usize>
    ensures { IfOk result (λ n. n ≤ length text.new) }
{
    let mut n = 0;
    while n < text.len() {
        let more = input.read(&mut text[n..])?;
        if more == 0 {
            break;
        }
        n += more;
    }
    Ok(n)
}

// The arrays are made in one function and lent whole to another: where an array is lent as a slice beside its making, its length is
// counted out byte by byte in the proof.
fn answer_input(
    rt: &impl Print,
    input: &mut impl Read,
    text: &mut [u8; LONGEST_TEXT],
) -> Result<()> {
    let n = read_full(input, text)?;
    if n == 0 {
        return say_boot(rt);
    }
    if goes_on(input)? {
        return println!(rt; "longer than 262144 bytes, more than a state's text needs");
    }
    say_anew(rt, first(text, n))
}

fn main(rt: HostRuntime) -> Result<()> {
    let mut input = rt.stdin();
    let mut text = [0u8; LONGEST_TEXT];
    answer_input(&rt, &mut input, &mut text)
}
