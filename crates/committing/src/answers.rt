// "Success is 0, or a non-negative count."
ghost use Rattle.std.specs.Prelude.{◌≡◌, ◌<◌, ◌^◌, pos};
ghost use Rattle.rules.specs.Commit.{success};

use words::actions::Action;

// What a call that passed answers.
pub fn answer_of(a: Action) -> i32
    requires { success a < 2 ^ 31 }
    ensures { result ≡ pos (success a) }
{
    match a {
        Action::SetCount { taken, .. } => taken.0 as i32,
        Action::Answer(n) => n as i32,
        _ => 0,
    }
}
