// "Success is 0, or a non-negative count."
ghost use Rattle.std.specs.Prelude.{◌≡◌};
ghost use Rattle.lines.specs.Counts.{count_of};

// The count that an answer gives; of a refusal it is 0, as `count_of` of specs/Counts.antt has it.
pub fn count_of(answer: i32) -> u32
    ensures { result ≡ count_of answer }
{
    u32::try_from(answer).unwrap_or(0)
}
