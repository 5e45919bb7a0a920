// A number as a person types it: decimal, or hexadecimal after `0x`.
ghost use Rattle.std.specs.Prelude.{◌≡◌, ◌≤◌};
ghost use Rattle.lines.specs.Numbers.{number_in, number_of};

use digits::digit;

// Why a word is no number that a line can give.
#[derive(Clone, Copy)]
pub enum NumberFault {
    NotANumber,
    TooLarge,
}

// Every value above 4294967295 ends alike, so one stands for all and no later sum wraps.
const TOO_LARGE: u64 = 4294967296;

// The characters as digits of `base`.
fn digits_in(text: &[u8], base: u64) -> Result<u32, NumberFault>
    requires { (1 ≤ base) × (base ≤ 16) }
    ensures { result ≡ number_in base text.now }
{
    if text.is_empty() {
        return Err(NumberFault::NotANumber);
    }
    let mut v = 0;
    for &b in text {
        let d = u64::from(digit(b));
        if base <= d {
            return Err(NumberFault::NotANumber);
        }
        v = (v * base + d).min(TOO_LARGE);
    }
    u32::try_from(v).or(Err(NumberFault::TooLarge))
}

pub fn number_in(text: &[u8]) -> Result<u32, NumberFault>
    ensures { result ≡ number_of text.now }
{
    match text {
        [b'0', b'x', digits @ ..] => digits_in(digits, 16),
        _ => digits_in(text, 10),
    }
}
