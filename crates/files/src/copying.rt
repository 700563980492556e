// Copies of words, and zeros.
ghost use Rattle.std.specs.Prelude.{◌≡◌, ◌+◌, ◌-◌, ◌≤◌, length, replicate};
ghost use Rattle.problem.specs.Lists.{splice};
ghost use Rattle.files.specs.Loops.Said.{part_in};

// So many words from a place on.
pub(crate) fn part(words: &[u16], from: usize, count: usize) -> &[u16]
    requires { from + count ≤ length words.now }
    ensures { (result.now ≡ part_in words.now from count) × (length result.now ≡ count) }
{
    let end = from + count;
    &words[from..end]
}

// A copy; 16 words are named as so many, so that the machine takes eight at once with no call.
pub(crate) fn put_words(words: &[u16], out: &mut [u16])
    requires { length words.now ≡ length out.old }
    ensures { out.new ≡ words.now }
{
    if words.len() == 16 {
        out[..16].copy_from_slice(&words[..16]);
        return;
    }
    out.copy_from_slice(words);
}

// A copy in the place of the words from `at` on; where it ends.
pub(crate) fn put_at(words: &[u16], out: &mut [u16], at: usize) -> usize
    requires { at + length words.now ≤ length out.old }
    ensures { (out.new ≡ splice out.old at words.now) × (result ≡ at + length words.now) }
{
    let end = at + words.len();
    put_words(words, &mut out[at..end]);
    end
}

// Zeros from `at` on.
pub(crate) fn put_zeros(words: &mut [u16], at: usize)
    requires { at ≤ length words.old }
    ensures { words.new ≡ splice words.old at (replicate (length words.old - at) 0) }
{
    words[at..].fill(0);
}
