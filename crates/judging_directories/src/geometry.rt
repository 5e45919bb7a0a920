// The geometry that a call asks of a new directory, and the slots that a directory of a number order takes.
ghost use Rattle.std.specs.Prelude.{◌≡◌, ◌*◌, ◌+◌, ◌^◌, ◌≤◌};
ghost use Rattle.words.specs.Sizes.{header_size, most_number_order, position_size, slots_for};
ghost use Rattle.rules.specs.Calls.{shape_asked};

use judging_numbers::lookups::has_flag;
use words::capabilities::Geometry;
use words::fields::{Words, number_order, q0};
use words::sizes::{HEADER_SIZE_U32, POSITION_SIZE_U32, slots_for};

// "start with top mark in bit 0"
const TOP_MARK: u32 = 0;

// "Q0 size order, N[15:8] number order, P3 start with top mark in bit 0"
pub(crate) fn shape_asked(w: Words) -> Geometry
    ensures { result ≡ shape_asked w }
{
    Geometry {
        size: q0(w),
        number: number_order(w),
        top: has_flag(w.p3, TOP_MARK),
        start: w.p3 / 2 * 2,
    }
}

// "(32 + 8·2^k) bytes, rounded up"
pub(crate) fn slots_taken(k: u32) -> u32
    requires { k ≤ most_number_order }
    ensures { (result ≡ slots_for (header_size + position_size * 2 ^ k)) × (1 ≤ result) × (result ≤ 64) }
{
    let positions: u32 = 1 << k;
    slots_for(HEADER_SIZE_U32 + POSITION_SIZE_U32 * positions)
}
