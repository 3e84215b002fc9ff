// An entry is a subject, which the kiosk calls a card, or any other object, which it calls a thing.
ghost use Rattle.std.specs.Prelude.{◌≡◌};
ghost use Rattle.model.specs.Kinds.{kind_number};

#[derive(Clone, Copy, Debug, PartialEq, Eq)]
pub enum Kind {
    Subject = 1,
    Object = 2,
}

// The number of the kind on a tape.
impl From<Kind> for u8 {
    ghost from_gives = { λ kind n. n ≡ kind_number kind };

    fn from(kind: Kind) -> u8 {
        kind as u8
    }
}
