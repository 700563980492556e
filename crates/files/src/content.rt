// The content of a saved search: how many words it has, and the words.
ghost use Rattle.std.specs.Prelude.{◌≡◌, ◌++◌, ◌+◌, ◌-◌, ◌*◌, ◌≤◌, length, replicate};
ghost use Rattle.problem.specs.Problem.{table_of};
ghost use Rattle.files.specs.Content.{triangle};
ghost use Rattle.files.specs.Reading.{triangle_words, word_count};
ghost use Rattle.files.specs.Calls.{handed_content};
ghost use Rattle.problem.specs.Lists.{splice};
ghost use Rattle.files.specs.Loops.Saved.{Savable, header};

use crate::copying;
use crate::sizes::{FIRST, Sizes, WORDS};
use search::state::State;

// The nine words before the domains: n, d, the steps in two words and the checks in four, high first, the number of subproblems.
fn header(sizes: Sizes, state: State) -> [u16; FIRST]
    requires { state.subproblems ≤ 512 }
    ensures { result ≡ header sizes.n sizes.d state }
{
    let steps = state.counts.steps.0;
    let checks = state.counts.checks.0;
    [
        sizes.n as u16,
        sizes.d as u16,
        (steps / 65536) as u16,
        (steps % 65536) as u16,
        (checks / 281474976710656) as u16,
        (checks / 4294967296 % 65536) as u16,
        (checks / 65536 % 65536) as u16,
        (checks % 65536) as u16,
        state.subproblems as u16,
    ]
}

// The masks for `i` below `j`, from `at` on; where they end.
fn put_masks(sizes: Sizes, tables: &[u16], words: &mut [u16], at: usize) -> usize
    requires { (length tables.now ≡ sizes.n * sizes.n * sizes.d) × (at + triangle_words sizes.n sizes.d ≤ length words.old) }
    ensures { (words.new ≡ splice words.old at (triangle sizes.n sizes.d (table_of sizes.n sizes.d tables.now))) × (result ≡ at + triangle_words sizes.n sizes.d) }
{
    let mut end = at;
    for i in 0..sizes.n {
        end = copying::put_at(sizes.masks_after(tables, i), words, end);
    }
    end
}

// The whole content, in words that are zeros: its parts one after the other.
pub(crate) fn put(
    sizes: Sizes,
    domains: &[u16],
    tables: &[u16],
    agenda: &[u16],
    state: State,
    words: &mut [u16; WORDS],
)
    requires { Savable sizes.n sizes.d domains.now tables.now agenda.now state × (words.old ≡ replicate 25553 0) }
    ensures { words.new ≡ handed_content sizes.n sizes.d domains.now tables.now agenda.now state ++ replicate (25553 - word_count sizes.n sizes.d state.subproblems) 0 }
{
    let first = header(sizes, state);
    let used = state.subproblems * (sizes.n + 2);
    let at = copying::put_at(&first[..FIRST], words, 0);
    let at = copying::put_at(domains, words, at);
    let at = put_masks(sizes, tables, words, at);
    copying::put_at(&agenda[..used], words, at);
}
