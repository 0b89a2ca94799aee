// How much a shape holds.
ghost use Rattle.std.specs.Prelude.{◌≡◌};
ghost use Rattle.interface.specs.Answers.{extent_number};

// Void: no point is held. Lone: exactly one is. Open: the shape may be split.
#[derive(Clone, Copy, Debug, PartialEq, Eq)]
pub enum Extent {
    Void = 0,
    Lone = 1,
    Open = 2,
}

impl From<Extent> for u8 {
    ghost from_gives = { λ extent number. number ≡ extent_number extent };

    fn from(extent: Extent) -> u8 {
        extent as u8
    }
}
