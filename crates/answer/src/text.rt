// The text of an answer, written from the front.
ghost use Rattle.std.specs.Prelude.{◌≡◌, [], ◌∷◌, ◌+◌, ◌<◌, ◌≤◌, length};
ghost use Rattle.problem.specs.Masks.{lowest};
ghost use Rattle.problem.specs.Refused.{number_of};
ghost use Rattle.answer.specs.Text.{decimal, verdict_line, counts_line, plan_line, refused_line};
ghost use Rattle.answer.specs.Loops.Writing.{Holds, Adds, value_lines};

use problem::mask;
use problem::refusal::Refusal;
use searches::verdict::Verdict;

// So many bytes of text, zeros after it: the memory is fixed.
#[derive(Clone, Copy)]
pub struct Text {
    pub bytes: [u8; 512],
    pub length: usize,
}

// No text yet.
pub(crate) fn start() -> Text
    ensures { Holds result [] }
{
    Text {
        bytes: [0u8; 512],
        length: 0,
    }
}

// The byte of a digit.
fn digit(value: u64) -> u8
    requires { value < 10 }
    ensures { result ≡ 48 + value }
{
    b'0' + value as u8
}

impl Text {
    // One byte more.
    fn with_byte(mut self, byte: u8) -> Text
        ensures { Adds self (byte ∷ []) result }
    {
        let at = self.length;
        if at < 512 {
            self.bytes[at] = byte;
            self.length = at + 1;
        }
        self
    }

    // A word more.
    fn with_word(self, word: &[u8]) -> Text
        ensures { Adds self word.now result }
    {
        let mut text = self;
        for byte in word {
            text = text.with_byte(*byte);
        }
        text
    }

    // A number more, in decimal; by hand, since `fmt::Write` does not say that a write succeeds, and an answer cannot fail.
    fn with_number(self, number: u64) -> Text
        ensures { Adds self (decimal number) result }
    {
        if number < 10 {
            return self.with_byte(digit(number));
        }
        let higher = self.with_number(number / 10);
        higher.with_byte(digit(number % 10))
    }

    // Line 1: the verdict.
    pub(crate) fn with_verdict(self, verdict: Verdict) -> Text
        ensures { Adds self (verdict_line verdict) result }
    {
        match verdict {
            Verdict::None => self.with_word(b"none\n"),
            Verdict::Running => self.with_word(b"running\n"),
            Verdict::Solved => self.with_word(b"solved\n"),
            Verdict::Unsolvable => self.with_word(b"unsolvable\n"),
        }
    }

    // Line 2: both counts.
    pub(crate) fn with_counts(self, steps: u32, checks: u64) -> Text
        ensures { Adds self (counts_line steps checks) result × (length (counts_line steps checks) ≤ 55) }
    {
        let text = self.with_word(b"steps ").with_number(steps as u64);
        text.with_word(b" checks ")
            .with_number(checks)
            .with_byte(b'\n')
    }

    // The line of a refusal.
    pub(crate) fn with_refusal(self, refusal: Refusal) -> Text
        ensures { Adds self (refused_line (number_of refusal)) result × (length (refused_line (number_of refusal)) ≤ 29) }
    {
        self.with_word(b"refused ")
            .with_number(u32::from(refusal) as u64)
            .with_byte(b'\n')
    }

    // The line of a variable: number, the lowest value of its domain.
    fn with_value(self, variable: usize, domain: u16) -> Text
        ensures { Adds self (plan_line variable (lowest domain)) result }
    {
        let text = self.with_number(variable as u64).with_byte(b' ');
        text.with_number(mask::lowest(domain) as u64)
            .with_byte(b'\n')
    }

    // A line for each of the domains.
    pub(crate) fn with_plan(self, domains: &[u16]) -> Text
        ensures { Adds self (value_lines (length domains.now) domains.now) result }
    {
        let mut text = self;
        for (i, domain) in domains.iter().enumerate() {
            text = text.with_value(i, *domain);
        }
        text
    }
}
