// A page of a smaller order in a larger one: which index it may have, and its frame.
ghost use Rattle.std.specs.Prelude.{◌≡◌, ◌*◌, ◌+◌, ◌<◌, ◌^◌, ◌≤◌, ltb};
ghost use Rattle.words.specs.Sizes.{most_size_order};

// "index ≥ 2^difference" is refused. No index reaches a power that does not fit a word.
pub(crate) fn is_index(index: u32, difference: u32) -> bool
    ensures { result ≡ ltb index (2 ^ difference) }
{
    if 32 <= difference {
        return true;
    }
    let power: u32 = 1 << difference;
    index < power
}

// "Frame = source frame + index·2^(target order)"
pub(crate) fn frame_in(frame: u32, index: u32, order: u32) -> u32
    requires { (order ≤ most_size_order) × (frame + index * 2 ^ order < 2 ^ 32) }
    ensures { result ≡ frame + index * 2 ^ order }
{
    let size: u32 = 1 << order;
    frame + index * size
}
