// A line goes up to its line feed and includes it. Its body is what stands before the line feed, and before a carriage return there.
ghost use Rattle.std.specs.List.{list_all, position};
ghost use Rattle.std.specs.Prelude.{nat_eq, nat_lt, ◌≡◌, true, false, MatchOption, eqb, drop, take};
ghost use Rattle.digits.specs.Digits.{digit_of};
ghost use Rattle.intel_hex.specs.Marks.{line_feed};
ghost use Rattle.intel_hex.specs.Lines.{body_of, last_of, line_length, spells};

use digits::{HEX_BASE, digit};

fn first_feed(text: &[u8]) -> Option<usize>
    ensures { result ≡ position (λ b. nat_eq b 10) text.now }
{
    text.iter().position(|b| *b == b'\n')
}

// The first line of a text, and what stands behind it.
pub(crate) fn split_line(text: &[u8]) -> (&[u8], &[u8])
    ensures line { result.0.now ≡ take (line_length text.now) text.now }
    ensures behind { result.1.now ≡ drop (line_length text.now) text.now }
{
    match first_feed(text) {
        Some(feed) => text.split_at(feed + 1),
        None => (text, &[]),
    }
}

// None of a line that has no end.
pub(crate) fn body(line: &[u8]) -> Option<&[u8]>
    ensures { MatchOption result (eqb (last_of line.now) line_feed ≡ false) (λ b. (eqb (last_of line.now) line_feed ≡ true) × (b.now ≡ body_of line.now)) }
{
    let body = line.strip_suffix(b"\n")?;
    Some(body.strip_suffix(b"\r").unwrap_or(body))
}

fn all_hex(characters: &[u8]) -> bool
    ensures { result ≡ list_all (λ b. nat_lt (digit_of b) 16) characters.now }
{
    characters.iter().all(|b| digit(*b) < HEX_BASE)
}

// What stands behind a colon: digits in pairs. None of anything else.
pub(crate) fn digits(body: &[u8]) -> Option<&[u8]>
    ensures { MatchOption result (spells body.now ≡ false) (λ d. (spells body.now ≡ true) × (d.now ≡ drop 1 body.now)) }
{
    let digits = body.strip_prefix(b":")?;
    if all_hex(digits) && digits.len() % 2 == 0 {
        Some(digits)
    } else {
        None
    }
}
