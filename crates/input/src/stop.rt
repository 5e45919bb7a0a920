// Why a function that is called on each line of a record ends the calls before the record's end.
ghost use Rattle.std.specs.Prelude.{◌≡◌};
ghost use Rattle.input.specs.declared.stop.Stop.TheVariants.{Failed};

use std::io::Error;

#[derive(Drop)]
pub enum Stop {
    // Reading or printing failed.
    Failed(Error),
    // A line comes out otherwise than recorded.
    Differs,
}

impl From<Error> for Stop {
    ghost from_gives = { λ e stop. stop ≡ Failed e };

    fn from(e: Error) -> Self {
        Stop::Failed(e)
    }
}
