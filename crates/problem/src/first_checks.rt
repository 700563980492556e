// The first checks that speak of the problem alone: the refusals 1 to 5 that its numbers and words deserve.
ghost use Rattle.std.specs.Prelude.{◌≡◌, ◌-◌, ◌^◌, ◌≤◌, ◌<◌, length, ltb};
ghost use Rattle.problem.specs.Problem.{problem_of};
ghost use Rattle.problem.specs.Lists.{every};
ghost use Rattle.problem.specs.Calls.{BitsOf, RefusalOfNumbers, SizesRefusal, RefusalOf};
ghost use Rattle.problem.specs.Refused.{told};
ghost use Rattle.problem.specs.Tests.FirstChecks.{refusal_of_problem};
ghost use Rattle.problem.specs.Loops.FirstTests.{span_below, row_below};
ghost use Rattle.problem.specs.Loops.Tables.{allowed};

use crate::refusal::Refusal;
use crate::symmetry::Narrow;
use crate::tables::Tables;

// 1 or 2, or none.
pub fn refusal_of_numbers(n: usize, d: usize) -> Result<(), Refusal>
    ensures { RefusalOfNumbers n d (told result) }
{
    if !(1..=32).contains(&n) {
        return Err(Refusal::Variables);
    }
    if !(1..=16).contains(&d) {
        return Err(Refusal::Values);
    }
    Ok(())
}

// Whether a mask has no bit at `d` or above.
fn is_below(mask: u16, d: usize) -> bool
    requires { d ≤ 16 }
    ensures { result ≡ ltb mask (2 ^ d) }
{
    u64::from(mask) < 1 << d
}

// The bits of all words together.
pub fn bits_of(words: &[u16]) -> u16
    ensures { BitsOf words.now result }
{
    let mut bits: u16 = 0;
    for word in words {
        bits |= *word;
    }
    bits
}

impl Tables<'_> {
    // Whether no mask of the variable `i` with those from `from` to before `to` has a bit at `d` or above.
    fn span_below(&self, i: usize, from: usize, to: usize) -> bool
        requires { (i < self.now.n) × ((from ≤ to) × (to ≤ self.now.n)) }
        ensures { result ≡ span_below self.now.d (allowed self.now) i from (to - from) }
    {
        let start = (i * self.n + from) * self.d;
        let end = (i * self.n + to) * self.d;
        is_below(bits_of(&self.words[start..end]), self.d)
    }

    // Whether no mask of the variable `i` with another has one; its places with itself are not read.
    fn row_below(&self, i: usize) -> bool
        requires { i < self.now.n }
        ensures { result ≡ row_below self.now.n self.now.d (allowed self.now) i }
    {
        self.span_below(i, 0, i) && self.span_below(i, i + 1, self.n)
    }

    // Whether no mask that is read has one; of 16 values none can.
    fn are_below(&self) -> bool
        ensures { result ≡ every self.now.n (row_below self.now.n self.now.d (allowed self.now)) }
    {
        self.d == 16 || (0..self.n).all(|i| self.row_below(i))
    }

    // 4 or 5, or none, of the problem of these domains.
    fn refusal_with(&self, domains: &[u16]) -> Result<(), Refusal>
        requires { length domains.now ≡ self.now.n }
        ensures { told result ≡ refusal_of_problem (problem_of self.now.n self.now.d domains.now self.now.words.now) }
    {
        if !is_below(bits_of(domains), self.d) {
            return Err(Refusal::Masks);
        }
        if !self.are_below() {
            return Err(Refusal::Masks);
        }
        if (Narrow { tables: *self }).both_ways() {
            return Ok(());
        }
        Err(Refusal::OneWay)
    }
}

// 1 to 3, of the numbers and of how many words are lent as domains and tables.
pub fn sizes_refusal(n: usize, d: usize, domains: usize, tables: usize) -> Result<(), Refusal>
    ensures { SizesRefusal n d domains tables (told result) }
{
    refusal_of_numbers(n, d)?;
    if domains != n || tables != n * n * d {
        return Err(Refusal::Lengths);
    }
    Ok(())
}

// The first checks of a problem, in the order 1 to 5.
pub fn refusal(n: usize, d: usize, domains: &[u16], tables: &[u16]) -> Result<(), Refusal>
    ensures { RefusalOf n d domains.now tables.now (told result) }
{
    sizes_refusal(n, d, domains.len(), tables.len())?;
    Tables {
        n,
        d,
        words: tables,
    }
    .refusal_with(domains)
}
