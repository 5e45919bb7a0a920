// The twenty calls: judged on the lent state, then carried out.
ghost use Rattle.std.specs.Prelude.{◌≡◌};
ghost use Rattle.rules.specs.Buffer.{call_outcome};
ghost use Rattle.rules.specs.Cases.{four};

use audit::well_formed;
use committing::actions::carry_out;
use committing::answers::answer_of;
use judging::judge;
use words::fields::Words;
use words::refusals::{Refusal, refusal_number};

// The caller's slot and the four words N:C, P1, P2, P3. Order: −19, −18, −17, then the arguments.
pub fn kernel_call(s: &mut [u8], caller: u32, w0: u32, w1: u32, w2: u32, w3: u32) -> i32
    ensures { (record { reply = result; buffer = s.new }) ≡ call_outcome s.old caller (four w0 w1 w2 w3) }
{
    if !well_formed(s) {
        return refusal_number(Refusal::BadState);
    }
    let p = judge(
        s,
        caller,
        Words {
            nc: w0,
            p1: w1,
            p2: w2,
            p3: w3,
        },
    );
    match p {
        Ok(a) => {
            carry_out(s, a);
            answer_of(a)
        }
        Err(r) => refusal_number(r),
    }
}
