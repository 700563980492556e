// Words in lent memory, and the words of a request: kind, variable, value, then a target for each variable.
ghost use Rattle.std.specs.Prelude.{◌≡◌, ◌+◌, ◌<◌, get_or};
ghost use Rattle.splits.specs.Requests.{kind_of, variable_of, value_of, target_of};
ghost use Rattle.splits.specs.Kinds.{Decodes};

use crate::kind::Kind;
use problem::refusal::Refusal;

// The word at a place; 0 past the end.
pub(crate) fn word(words: &[u16], at: usize) -> u16
    ensures { result ≡ get_or words.now at 0 }
{
    words.get(at).copied().unwrap_or(0)
}

// Refused 7 where the word names no kind.
pub(crate) fn kind(request: &[u16]) -> Result<Kind, Refusal>
    ensures { Decodes (kind_of request.now) result }
{
    Kind::try_from(word(request, 0))
}

pub(crate) fn variable(request: &[u16]) -> usize
    ensures { result ≡ variable_of request.now }
{
    usize::from(word(request, 1))
}

pub(crate) fn value(request: &[u16]) -> usize
    ensures { result ≡ value_of request.now }
{
    usize::from(word(request, 2))
}

// The target mask of one of the 32 variables.
pub(crate) fn target(request: &[u16], variable: usize) -> u16
    requires { variable < 32 }
    ensures { result ≡ target_of request.now variable }
{
    word(request, 3 + variable)
}
