// Document 01's refusals, in the order of their numbers, 1 to 11. 0, done, is no refusal: what is done without a value answers `Ok(())`.
ghost use Rattle.std.specs.Prelude.{◌≡◌};
ghost use Rattle.ground.specs.Answers.{number_of};

#[derive(Clone, Copy, Debug, PartialEq, Eq)]
pub enum Refusal {
    NoOctets,
    UnknownType,
    WrongLength,
    PolygonCount,
    AngleCode,
    ConfidenceTooLarge,
    OutOfRange,
    UncertaintyTooLarge,
    NoneHolds,
    BufferTooShort,
    FrameBroken,
}

// A refusal's number.
impl From<Refusal> for u64 {
    ghost from_gives = { λ why n. n ≡ number_of why };

    fn from(why: Refusal) -> u64 {
        match why {
            Refusal::NoOctets => 1,
            Refusal::UnknownType => 2,
            Refusal::WrongLength => 3,
            Refusal::PolygonCount => 4,
            Refusal::AngleCode => 5,
            Refusal::ConfidenceTooLarge => 6,
            Refusal::OutOfRange => 7,
            Refusal::UncertaintyTooLarge => 8,
            Refusal::NoneHolds => 9,
            Refusal::BufferTooShort => 10,
            Refusal::FrameBroken => 11,
        }
    }
}
