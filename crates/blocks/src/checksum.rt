// The check of a block: the ones' complement checksum of RFC 1071 over the 255 words before it.
ghost use Rattle.std.specs.Prelude.{◌++◌, min, length, take, replicate, ◌≡◌, ◌+◌, ◌-◌, ◌/◌, ◌%◌};
ghost use Rattle.problem.specs.Lists.{total};
ghost use Rattle.blocks.specs.Blocks.{check_of};
ghost use Rattle.blocks.specs.Reading.{block_word, head_of};
ghost use Rattle.blocks.specs.Calls.{CheckOf};
ghost use Rattle.blocks.specs.Loops.Read.{value_at, folded_twice};

use crate::{BYTES, block};

// The sum of the words of a block before its check.
fn sum(words: &[u16; 256]) -> u32
    ensures { result ≡ total 255 (value_at words.now) }
{
    let mut sum = 0;
    for word in &words[..255] {
        sum += u32::from(*word);
    }
    sum
}

// The carries past 16 bits, added in.
fn folded(sum: u32) -> u32
    ensures { result ≡ sum % 65536 + sum / 65536 }
{
    sum % 65536 + sum / 65536
}

// The check of words of such a sum: the carries added in, and those of that, and the complement.
fn closed(sum: u32) -> u16
    ensures { result ≡ 65535 - folded_twice sum }
{
    65535 - (folded(folded(sum)) as u16)
}

// The check that a block is to have.
pub(crate) fn check(block: &[u8; BYTES]) -> u16
    ensures { result ≡ check_of (head_of block.now 0) }
{
    closed(sum(&block::words_of(block)))
}

// The bytes of one block, zeros in the place of those that are not there.
fn whole(block: &[u8]) -> [u8; BYTES]
    ensures { result ≡ take (min (length block.now) 512) block.now ++ replicate (512 - min (length block.now) 512) 0 }
{
    let mut whole = [0u8; BYTES];
    let count = block.len().min(BYTES);
    whole[..count].copy_from_slice(&block[..count]);
    whole
}

// The check of one block, of any number of bytes; zeros add nothing.
pub fn check_of(block: &[u8]) -> u16
    ensures { CheckOf block.now result }
{
    check(&whole(block))
}
