// The kinds of a request: which of the five splits it asks for.
ghost use Rattle.splits.specs.Kinds.{Decodes};

use problem::refusal::Refusal;

#[derive(Clone, Copy, Debug, PartialEq, Eq)]
pub enum Kind {
    Backtracking = 1,
    ForwardChecking = 2,
    Idc = 3,
    Halving = 4,
    Extraction = 5,
}

// The kind that a word names, refused 7 where it names none.
impl TryFrom<u16> for Kind {
    type Error = Refusal;

    ghost try_from_gives = { Decodes };

    fn try_from(word: u16) -> Result<Kind, Refusal> {
        match word {
            1 => Ok(Kind::Backtracking),
            2 => Ok(Kind::ForwardChecking),
            3 => Ok(Kind::Idc),
            4 => Ok(Kind::Halving),
            5 => Ok(Kind::Extraction),
            _ => Err(Refusal::Kind),
        }
    }
}
