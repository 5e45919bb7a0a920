// 6 create directory: C table CRT; P1.D1 memory PGTBL; Q1 place; Q0 size order, N[15:8] number order, P3 start with top mark in bit 0;
// P2 address.
ghost use Rattle.std.specs.Prelude.{true, ◌≡◌, ◌≤◌};
ghost use Rattle.words.specs.Sizes.{kernel_end, kernel_start};
ghost use Rattle.state.specs.Read.{read};
ghost use Rattle.rules.specs.Calls.{create_directory};
ghost use Rattle.rules.specs.WellFormed.{wf};
ghost use Rattle.judging_directories.specs.Shaping.{shape_and_place};

use crate::geometry::{shape_asked, slots_taken};
use judging_numbers::arguments::{memory_arg, table_arg};
use judging_places::addresses::address_arg;
use judging_places::places::to_fill;
use orders::is_geometric;
use words::actions::{Action, Spot};
use words::capabilities::{Geometry, Stretch};
use words::fields::{Words, address_in_word, number_in_c, number_in_d1, q1};
use words::flag_bits::{M_PGTBL, T_CRT};
use words::numbers::{KernelAddress, Slot};
use words::refusals::Refusal;

// The geometry, "else PGT_HW", then the address.
fn shape_and_place(
    s: &[u8],
    m: Stretch,
    p: Spot,
    g: Geometry,
    at: KernelAddress,
) -> Result<Action, Refusal>
    requires { (kernel_start ≤ m.low.0) × (m.high.0 ≤ kernel_end) }
    ensures { result ≡ shape_and_place (read s.now) m p g at }
{
    if !is_geometric(g) {
        return Err(Refusal::PgtHw);
    }
    let first = address_arg(s, m, at, slots_taken(g.number))?;
    Ok(Action::CreateDirectory {
        at: p,
        first,
        shape: g,
    })
}

// On a well-formed state the memory right lies in kernel memory, so that an address in it has a slot.
pub fn judge_create_directory(s: &[u8], t: Slot, w: Words) -> Result<Action, Refusal>
    requires { wf (read s.now) ≡ true }
    ensures { result ≡ create_directory (read s.now) t w }
{
    let c = table_arg(s, t, number_in_c(w), T_CRT)?;
    let m = memory_arg(s, t, number_in_d1(w.p1), M_PGTBL)?;
    let p = to_fill(s, c, q1(w))?;
    shape_and_place(s, m, p, shape_asked(w), address_in_word(w.p2))
}
