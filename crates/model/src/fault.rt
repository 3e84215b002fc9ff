// Why a call is refused: which layer, by which rule, and where.
ghost use Rattle.std.specs.Prelude.{◌≡◌};
ghost use Rattle.model.specs.Faults.{layer_number, reason_number};

#[derive(Clone, Copy, Debug, PartialEq, Eq)]
pub enum Layer {
    Scheme = 1,
    Opening = 2,
    Certificate = 3,
    Bans = 4,
    Register = 5,
    Checker = 6,
    Parts = 7,
}

// The number of the layer in a refusal. Kinds, layers and reasons each have such a `From`: one for all three would be generic
// over types, and overlap the library's own.
impl From<Layer> for u8 {
    ghost from_gives = { λ layer n. n ≡ layer_number layer };

    fn from(layer: Layer) -> u8 {
        layer as u8
    }
}

// The rule that was broken.
#[derive(Clone, Copy, Debug, PartialEq, Eq)]
pub enum Reason {
    TapeTooLong = 1,
    NoOrder = 2,
    OutOfPlace = 3,
    TooMany = 4,
    OutOfRange = 5,
    ParameterRule = 6,
    UnfitReference = 7,
    OpeningTooLarge = 8,
    NoSuchCommand = 9,
    WrongNumberOfNames = 10,
    NoSuchName = 11,
    RepeatedName = 12,
    WrongPresence = 13,
    NotASubject = 14,
    TestFails = 15,
    StoreTooSmall = 16,
    NotContained = 17,
    NotClosed = 18,
    BanMet = 19,
    BufferTooSmall = 20,
    NoCertificate = 21,
    BoardSize = 22,
    ListSize = 23,
    NoSuchAttribute = 24,
}

// The number of the rule.
impl From<Reason> for u8 {
    ghost from_gives = { λ reason n. n ≡ reason_number reason };

    fn from(reason: Reason) -> u8 {
        reason as u8
    }
}

#[derive(Clone, Copy, Debug, PartialEq, Eq)]
pub struct Fault {
    pub layer: Layer,
    pub reason: Reason,
    // 0 where there is no place, as refusals are written.
    pub place: u16,
}
