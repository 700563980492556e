// What is said of a search.
ghost use Rattle.std.specs.Prelude.{◌≡◌};
ghost use Rattle.problem.specs.Verdicts.{number_of};

// None: refused by the first checks; a verdict that the rules name and number, and no missing value.
#[derive(Clone, Copy, PartialEq, Eq)]
pub enum Verdict {
    None = 0,
    Running = 1,
    Solved = 2,
    Unsolvable = 3,
}

// The number of a verdict, as the C header has it.
impl From<Verdict> for u32 {
    ghost from_gives = { λ verdict number. number ≡ number_of verdict };

    fn from(verdict: Verdict) -> u32 {
        verdict as u32
    }
}
