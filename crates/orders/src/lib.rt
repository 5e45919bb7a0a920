// Orders are powers of two: which numbers are multiples of such a power, and which shape a directory may have. Above the rules, and below
// both halves that ask: the check of a state, and the judge of a call that creates a directory.
#![tactic(auto)]

ghost use Rattle.std.specs.Prelude.{◌≡◌, ◌%◌, ◌^◌, ◌≤◌, eqb};
ghost use Rattle.words.specs.Sizes.{most_order_sum};
ghost use Rattle.rules.specs.WellFormed.{geometric};

use words::capabilities::Geometry;
use words::sizes::{
    LEAST_NUMBER_ORDER, LEAST_SIZE_ORDER, MOST_NUMBER_ORDER, MOST_ORDER_SUM, MOST_SIZE_ORDER,
};

// Whether x is a multiple of 2^k. The power of 32 does not fit a word.
pub fn is_multiple(x: u32, k: u32) -> bool
    requires { k ≤ most_order_sum }
    ensures { result ≡ eqb (x % 2 ^ k) 0 }
{
    (x as u64).is_multiple_of(1 << k)
}

// "size order 6..31, number order 1..8, sum at most 32, start a multiple of 2^sum"
pub fn is_geometric(g: Geometry) -> bool
    ensures { result ≡ geometric g }
{
    LEAST_SIZE_ORDER <= g.size
        && g.size <= MOST_SIZE_ORDER
        && LEAST_NUMBER_ORDER <= g.number
        && g.number <= MOST_NUMBER_ORDER
        && g.size + g.number <= MOST_ORDER_SUM
        && is_multiple(g.start, g.size + g.number)
}
