// The front of a slice.
ghost use Rattle.std.specs.Prelude.{◌≡◌, take};

// The first `count` items, or all where there are fewer.
pub fn front<T>(items: &[T], count: usize) -> &[T]
    ensures { result.now ≡ take count items.now }
{
    &items[..count.min(items.len())]
}
