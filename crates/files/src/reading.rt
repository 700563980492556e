// What is read of a file, and which refusal it deserves past 14: 15, 3, 12.
ghost use Rattle.std.specs.Prelude.{◌≡◌, suc, ◌+◌, ◌-◌, ◌*◌, ◌/◌, ◌<◌, ◌≤◌, length};
ghost use Rattle.problem.specs.Refused.{told};
ghost use Rattle.problem.specs.Lists.{total, every};
ghost use Rattle.files.specs.Reading.{triangle_place, agenda_from, refusal_of_words};
ghost use Rattle.files.specs.Calls.{HeaderOf, load_refusal};
ghost use Rattle.files.specs.Loops.Said.{numbers_in, zero_in, filled, sized_in, part_in, said_header, Read, Made};

use crate::copying;
use crate::saved::Header;
use crate::sizes::{FIRST, SUBPROBLEMS, Sizes, WORDS};
use problem::refusal::Refusal;
use search::state::State;

// Whether n, d and the number of subproblems are in their ranges.
fn numbers_fit(n: usize, d: usize, subproblems: usize) -> bool
    ensures { result ≡ numbers_in n d subproblems }
{
    problem::first_checks::refusal_of_numbers(n, d).is_ok() && subproblems <= SUBPROBLEMS
}

// Whether every word of the content from one on is zero, of so many.
fn zeros_from(file: &[u8], from: usize, words: usize) -> bool
    requires { from + words < 65536 }
    ensures { result ≡ every words (zero_in file.now from) }
{
    for k in 0..words {
        if blocks::reading::content_word(file, from + k) != 0 {
            return false;
        }
    }
    true
}

// Whether so many words fill exactly the file's blocks, with zeros after.
fn fills(file: &[u8], words: usize) -> bool
    requires { words ≤ 25385 }
    ensures { result ≡ filled file.now words }
{
    let blocks = file.len() / blocks::BYTES;
    blocks == (words + 252) / blocks::CONTENT
        && zeros_from(file, words, blocks * blocks::CONTENT - words)
}

// Whether the numbers are in their ranges and the words that they say fill the blocks.
pub(crate) fn is_sized(file: &[u8], header: Header) -> bool
    requires { HeaderOf file.now header }
    ensures { result ≡ sized_in file.now }
{
    let n = header.n;
    let d = header.d;
    let subproblems = header.state.subproblems;
    numbers_fit(n, d, subproblems) && fills(file, Sizes { n, d }.words(subproblems))
}

// A file that passed 14 and whose sizes fit, what its first words say, and the words of its content.
#[derive(Clone, Copy)]
pub(crate) struct Content<'a> {
    pub(crate) sizes: Sizes,
    pub(crate) state: State,
    pub(crate) file: &'a [u8],
    pub(crate) words: &'a [u16; WORDS],
    ghost read: { Read file.now words.now (said_header sizes.n sizes.d state) },
}

impl Content<'_> {
    // So many words from a place on.
    fn part(&self, from: usize, count: usize) -> &[u16]
        requires { from + count ≤ 25553 }
        ensures { (result.now ≡ part_in self.now.words.now from count) × (length result.now ≡ count) }
    {
        let words = self.words;
        copying::part(words, from, count)
    }

    // The domains.
    pub(crate) fn domains(&self) -> &[u16]
        ensures { let c = self.now in (result.now ≡ part_in c.words.now 9 c.sizes.n) × (length result.now ≡ c.sizes.n) }
    {
        self.part(FIRST, self.sizes.n)
    }

    // The words of so many slots.
    pub(crate) fn slots(&self, count: usize) -> &[u16]
        requires { count ≤ 512 }
        ensures { let c = self.now in (result.now ≡ part_in c.words.now (agenda_from c.sizes.n c.sizes.d) (count * (c.sizes.n + 2))) × (length result.now ≡ count * (c.sizes.n + 2)) }
    {
        self.part(self.sizes.agenda_from(), count * (self.sizes.n + 2))
    }

    // The masks for `i` below `j`.
    pub(crate) fn masks(&self, i: usize, j: usize) -> &[u16]
        requires { (i < j) × (j < self.now.sizes.n) }
        ensures { let c = self.now in (result.now ≡ part_in c.words.now (9 + c.sizes.n + triangle_place c.sizes.n c.sizes.d i j 0) c.sizes.d) × (length result.now ≡ c.sizes.d) }
    {
        self.part(self.sizes.place(i, j), self.sizes.d)
    }

    // The masks of `i` with the variables after it, which stand together.
    pub(crate) fn masks_after(&self, i: usize) -> &[u16]
        requires { i < self.now.sizes.n }
        ensures { let c = self.now in (result.now ≡ part_in c.words.now (9 + c.sizes.n + total i (λ h. c.sizes.n - suc h) * c.sizes.d) ((c.sizes.n - (i + 1)) * c.sizes.d)) × (length result.now ≡ (c.sizes.n - (i + 1)) * c.sizes.d) }
    {
        let sizes = self.sizes;
        self.part(
            FIRST + sizes.n + sizes.pairs_before(i) * sizes.d,
            (sizes.n - (i + 1)) * sizes.d,
        )
    }

    // 15, or none, of the rules: the first checks of the search that the words say, in an agenda of 512 slots.
    fn refusal_of_rules(&self, tables: &[u16]) -> Result<(), Refusal>
        requires { Made self.now.file.now tables.now }
        ensures { told result ≡ refusal_of_words self.now.file.now }
    {
        search::first_checks::search_refusal(
            self.sizes.n,
            self.sizes.d,
            self.domains(),
            tables,
            self.slots(SUBPROBLEMS),
            self.state,
        )
        .or(Err(Refusal::Content))
    }

    // The refusal of load past 14 and the sizes, of the numbers of words lent as domains, tables and agenda.
    pub(crate) fn refusal(
        &self,
        masks: &[u16],
        domains: usize,
        tables: usize,
        agenda: usize,
    ) -> Result<(), Refusal>
        requires { Made self.now.file.now masks.now }
        ensures { told result ≡ load_refusal self.now.file.now domains tables agenda }
    {
        let n = self.sizes.n;
        self.refusal_of_rules(masks)?;
        search::first_checks::sizes_refusal(n, self.sizes.d, domains, tables, agenda)?;
        if agenda / (n + 2) < self.state.subproblems {
            return Err(Refusal::Room);
        }
        Ok(())
    }
}
