// The sizes of a search, and where the parts of its content stand.
ghost use Rattle.std.specs.Prelude.{◌≡◌, suc, ◌+◌, ◌-◌, ◌*◌, ◌<◌, ◌≤◌, length};
ghost use Rattle.problem.specs.Lists.{total};
ghost use Rattle.files.specs.Reading.{agenda_from, word_count, triangle_place};
ghost use Rattle.files.specs.Loops.Said.{Numbers, part_in};

use crate::copying;

// The words before the domains, and how many subproblems a file has at most.
pub(crate) const FIRST: usize = 9;

pub(crate) const SUBPROBLEMS: usize = 512;

// The words of 101 blocks, and of the largest tables, 32 times 32 times 16.
pub(crate) const WORDS: usize = 25553;

pub(crate) const MASKS: usize = 16384;

// n and d, in their ranges.
#[derive(Clone, Copy)]
pub(crate) struct Sizes {
    pub(crate) n: usize,
    pub(crate) d: usize,
    ghost numbers: { Numbers n d },
}

impl Sizes {
    // How many words of a content come before its agenda.
    pub(crate) fn agenda_from(self) -> usize
        ensures { (result ≡ agenda_from self.n self.d) × (result ≤ 7977) }
    {
        FIRST + self.n + self.n * (self.n - 1) / 2 * self.d
    }

    // How many words a content has.
    pub(crate) fn words(self, subproblems: usize) -> usize
        requires { subproblems ≤ 512 }
        ensures { (result ≡ word_count self.n self.d subproblems) × (result ≤ 25385) }
    {
        self.agenda_from() + subproblems * (self.n + 2)
    }

    // The masks of `i` with the variables after it, which stand together in the tables.
    pub(crate) fn masks_after(self, tables: &[u16], i: usize) -> &[u16]
        requires { (length tables.now ≡ self.n * self.n * self.d) × (i < self.n) }
        ensures { (result.now ≡ part_in tables.now ((i * self.n + i + 1) * self.d) ((self.n - (i + 1)) * self.d)) × (length result.now ≡ (self.n - (i + 1)) * self.d) }
    {
        copying::part(
            tables,
            (i * self.n + i + 1) * self.d,
            (self.n - (i + 1)) * self.d,
        )
    }

    // How many pairs of variables stand before those of `i` with a later one.
    pub(crate) fn pairs_before(self, i: usize) -> usize
        requires { i ≤ self.n }
        ensures { (result ≡ total i (λ h. self.n - suc h)) × (result ≤ 1024) }
    {
        self.n * i - i * (i + 1) / 2
    }

    // Where the masks for `i` below `j` begin in a content.
    pub(crate) fn place(self, i: usize, j: usize) -> usize
        requires { (i < j) × (j < self.n) }
        ensures { (result ≡ 9 + self.n + triangle_place self.n self.d i j 0) × (result + self.d ≤ 25553) }
    {
        FIRST + self.n + (self.pairs_before(i) + (j - (i + 1))) * self.d
    }
}
