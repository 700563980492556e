// Why a call refuses: each refusal, and its number.
ghost use Rattle.std.specs.Prelude.{◌≡◌};
ghost use Rattle.problem.specs.Refused.{number_of};

// In the order of their numbers.
#[derive(Clone, Copy, Debug, PartialEq, Eq)]
pub enum Refusal {
    // n is not 1 to 32, d not 1 to 16.
    Variables = 1,
    Values = 2,
    // What is lent is not as long as the rules say.
    Lengths = 3,
    // A domain or a mask that is read has a bit at d or above; a pair is allowed one way only.
    Masks = 4,
    OneWay = 5,
    // A search that is handed in breaks the rules.
    Search = 6,
    // Of a request: the kind, V, v or half, the targets; the steps are at their last; its pieces have no room.
    Kind = 7,
    Variable = 8,
    Value = 9,
    Targets = 10,
    Steps = 11,
    Room = 12,
    // The buffer is too short for the file; a block of the file is wrong, or what its words say.
    Buffer = 13,
    Blocks = 14,
    Content = 15,
}

impl From<Refusal> for u32 {
    ghost from_gives = { λ refusal number. number ≡ number_of refusal };

    fn from(refusal: Refusal) -> u32 {
        refusal as u32
    }
}
