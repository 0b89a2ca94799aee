// Numbers, settings and nodes from words.
ghost use Rattle.std.specs.Prelude.{◌≡◌, ◌+◌, ◌*◌, ◌<◌, IfSome};

// A whole number.
pub(crate) fn number(word: &str) -> Option<i32> {
    word.parse::<i32>().ok()
}

// The number of a setting, from `s3`. All past 127 are read as 127: no line has them either, and each has its nodes.
pub(crate) fn setting(word: &str) -> Option<u8>
    ensures bound { IfSome result (λ k. k < 128) }
{
    Some(word.strip_prefix("s")?.parse::<u8>().ok()?.min(127))
}

// The node of a setting, from `s3`, or of its negative, from `-s3`.
pub(crate) fn node(word: &str) -> Option<u8> {
    match word.strip_prefix("-") {
        Some(rest) => Some(2 * setting(rest)? + 1),
        None => Some(2 * setting(word)?),
    }
}

// A coefficient. All past what a byte holds are read as its ends: the rule's check refuses them too.
pub(crate) fn coefficient(word: &str) -> Option<i8> {
    Some(number(word)?.clamp(-128, 127) as i8)
}
