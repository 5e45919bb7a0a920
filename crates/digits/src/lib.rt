// Hexadecimal digits: what a character counts as one, in either letter case, and the character that is written.
#![tactic(auto)]

ghost use Rattle.std.specs.Prelude.{true, ◌≡◌, ◌<◌};
ghost use Rattle.digits.specs.Digits.{digit_for, digit_of};

// Each digit is below this; a character that is none counts as this.
pub const HEX_BASE: u8 = 16;

// `A` stands for 10: what is added to a digit from there on.
const LETTER_SHIFT: u8 = b'A' - 10;

// What a character counts as a digit. A number and no Option: all_digits, pairs and value_from of the specs compare and add digit_of's number,
// 16 for none among them, so that one comparison with the base tells both no digit and one above the base.
pub fn digit(b: u8) -> u8
    ensures { result ≡ digit_of b }
{
    match b {
        b'0'..=b'9' => b - b'0',
        b'A'..=b'F' => b - b'A' + 10,
        b'a'..=b'f' => b - b'a' + 10,
        _ => HEX_BASE,
    }
}

// "upper-case digits"
pub fn digit_for(n: u8) -> u8
    requires { n < 16 }
    ensures { result ≡ digit_for true n }
{
    if n < 10 { b'0' + n } else { LETTER_SHIFT + n }
}
