// Words in bytes: two bytes a word, the low one first, as C holds them on x86-64.
#![tactic(auto)]

ghost use Rattle.std.specs.Prelude.{◌≡◌, true, ◌+◌, ◌*◌, length};
ghost use Rattle.word_bytes.specs.Bytes.{Fits, fits, none_empty, all_fit, zeros};
ghost use Rattle.word_bytes.specs.Calls.{Puts, WordsOf, ThreeOf, Writes};

// How many words each of three slices of bytes was turned into.
#[derive(Clone, Copy)]
pub struct Three {
    pub first: usize,
    pub second: usize,
    pub third: usize,
}

// The word of two bytes.
fn word(low: u8, high: u8) -> u16
    ensures { result ≡ low + 256 * high }
{
    u16::from_le_bytes([low, high])
}

// Puts the words that the bytes say at the front of `words`: one at least, so that no test stands before the first turn.
fn put(bytes: &[u8], words: &mut [u16]) -> usize
    requires { Fits (length bytes.now) (length words.old) }
    ensures { Puts true bytes.now words.old words.new result }
{
    let count = (bytes.len() / 2).max(1);
    for i in 0..count {
        words[i] = word(bytes[2 * i], bytes[2 * i + 1]);
    }
    count
}

// Whether so many bytes are whole words, no more than `most` of them.
#[tactic(auto, unfolding(crate::specs::Bytes::fits))]
fn fits(bytes: usize, most: usize) -> bool
    ensures { result ≡ fits bytes most }
{
    // Two tests, not one with `&&`: the compiler then knows each where it was made before, and clears only what the words do not fill; a call of run was
    // seen to take 30 in 100 more instructions with one.
    if bytes % 2 != 0 {
        return false;
    }
    bytes / 2 <= most
}

// Whether none of the three is 0.
#[tactic(auto, unfolding(crate::specs::Bytes::none_empty))]
fn none_empty(first: usize, second: usize, third: usize) -> bool
    ensures { result ≡ none_empty first second third }
{
    0 < first && 0 < second && 0 < third
}

// Whether so many bytes of three slices are whole words, none of them empty and no more words than each has room for. The tests for 0 come last: so a
// caller that made them before it zeroed its arrays has them made once, and zeroes only what the words do not fill.
#[tactic(auto, unfolding(crate::specs::Bytes::all_fit))]
pub fn all_fit(
    first: usize,
    second: usize,
    third: usize,
    most1: usize,
    most2: usize,
    most3: usize,
) -> bool
    ensures { result ≡ all_fit first second third most1 most2 most3 }
{
    fits(first, most1)
        && fits(second, most2)
        && fits(third, most3)
        && none_empty(first, second, third)
}

// The words that bytes say, at the front of `words`, and how many; none where the bytes are not whole words or there is no room for all.
pub fn words_of(bytes: &[u8], words: &mut [u16]) -> usize
    ensures { WordsOf bytes.now words.old words.new result }
{
    if !fits(bytes.len(), words.len()) || bytes.len() == 0 {
        return 0;
    }
    put(bytes, words)
}

// The same of three slices, in this order, where all fit; else nothing is made of any.
pub fn three_of(
    first: &[u8],
    second: &[u8],
    third: &[u8],
    words1: &mut [u16],
    words2: &mut [u16],
    words3: &mut [u16],
) -> Three
    ensures { ThreeOf first.now second.now third.now words1.old words1.new words2.old words2.new words3.old words3.new result }
{
    if !all_fit(
        first.len(),
        second.len(),
        third.len(),
        words1.len(),
        words2.len(),
        words3.len(),
    ) {
        return Three {
            first: 0,
            second: 0,
            third: 0,
        };
    }
    let first = put(first, words1);
    let second = put(second, words2);
    let third = put(third, words3);
    Three {
        first,
        second,
        third,
    }
}

// The bytes that say the first of the words, as many as there are and as there is room for; past them the bytes stay.
pub fn bytes_of(words: &[u16], bytes: &mut [u8])
    ensures { Writes words.now bytes.old bytes.new }
{
    let count = words.len().min(bytes.len() / 2);
    for i in 0..count {
        let pair = words[i].to_le_bytes();
        bytes[2 * i] = pair[0];
        bytes[2 * i + 1] = pair[1];
    }
}

// Whether all bytes are 0.
pub fn zeros(bytes: &[u8]) -> bool
    ensures { result ≡ zeros bytes.now }
{
    let mut bits: u8 = 0;
    for byte in bytes {
        bits |= *byte;
    }
    bits == 0
}
