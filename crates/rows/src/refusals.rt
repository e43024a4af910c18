// Refusals: what each is for, its number in the refusal table, and its place.
ghost use Rattle.std.specs.Prelude.{◌≡◌};
ghost use Rattle.rows.specs.Refusals.{numbered, Numbers};

// What a refusal is for, in the order of the refusal table (docs/SPECIFICATION.md).
#[derive(Clone, Copy, Debug, PartialEq, Eq)]
pub enum Cause {
    Edition,
    ShorthandForm,
    BeyondEdition,
    Length,
    Parity,
    Character,
    ControlOut,
    Head,
    Start,
    Misplaced,
    Figures,
    Sign,
    SecondZero,
    CutShort,
    NoBlock,
    Record,
    Unfit,
    InexactSpeed,
    Room,
    Uncodable,
    CodeLength,
    ProfileForm,
    Disagreement,
    IndexRoom,
    NoNumber,
    Travel,
    Outside,
}

// A refusal: what it is for, and its place.
#[derive(Clone, Copy, Debug, PartialEq, Eq)]
pub struct Refusal {
    pub cause: Cause,
    pub place: usize,
}

impl Cause {
    // The refusal for this cause at a place.
    pub fn at(self, place: usize) -> Refusal
        ensures { result ≡ record { cause = self; place = place } }
    {
        Refusal { cause: self, place }
    }
}

// A cause's number in the refusal table.
impl From<Cause> for u32 {
    ghost from_gives = { Numbers };

    fn from(cause: Cause) -> u32 {
        match cause {
            Cause::Edition => 1,
            Cause::ShorthandForm => 2,
            Cause::BeyondEdition => 3,
            Cause::Length => 4,
            Cause::Parity => 5,
            Cause::Character => 6,
            Cause::ControlOut => 7,
            Cause::Head => 8,
            Cause::Start => 9,
            Cause::Misplaced => 10,
            Cause::Figures => 11,
            Cause::Sign => 12,
            Cause::SecondZero => 13,
            Cause::CutShort => 14,
            Cause::NoBlock => 15,
            Cause::Record => 16,
            Cause::Unfit => 17,
            Cause::InexactSpeed => 18,
            Cause::Room => 19,
            Cause::Uncodable => 20,
            Cause::CodeLength => 21,
            Cause::ProfileForm => 22,
            Cause::Disagreement => 23,
            Cause::IndexRoom => 24,
            Cause::NoNumber => 25,
            Cause::Travel => 26,
            Cause::Outside => 27,
        }
    }
}
