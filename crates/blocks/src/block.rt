// Bytes, words and blocks of a file.
ghost use Rattle.std.specs.Prelude.{◌≡◌, map, ◌+◌, ◌*◌, ◌≤◌, ◌<◌, length, get_or};
ghost use Rattle.problem.specs.Lists.{below};
ghost use Rattle.blocks.specs.Blocks.{word_at};
ghost use Rattle.blocks.specs.Reading.{block_word, content_from};
ghost use Rattle.blocks.specs.Loops.Read.{block_of};

use crate::{BYTES, CONTENT};

// The byte at a place; 0 past the end.
fn byte(file: &[u8], at: usize) -> u8
    ensures { result ≡ get_or file.now at 0 }
{
    file.get(at).copied().unwrap_or(0)
}

// Word `k` of the bytes; 0 past the end.
pub(crate) fn word(file: &[u8], k: usize) -> u16
    ensures { result ≡ word_at file.now k }
{
    if k < file.len() {
        return u16::from_be_bytes([byte(file, 2 * k), byte(file, 2 * k + 1)]);
    }
    0
}

// Block `b` of a file, from 0.
pub(crate) fn block_at(file: &[u8], b: usize) -> &[u8; BYTES]
    requires { b * 512 + 512 ≤ length file.now }
    ensures { result.now ≡ block_of file.now b }
{
    let at = b * BYTES;
    file[at..at + BYTES].as_array().unwrap()
}

// The words of one block, by a loop that takes eight at a time.
pub(crate) fn words_of(block: &[u8; BYTES]) -> [u16; 256]
    ensures { result ≡ map (block_word block.now 0) (below 256) }
{
    let mut words = [0u16; 256];
    for k in 0..256 {
        words[k] = u16::from_be_bytes([block[2 * k], block[2 * k + 1]]);
    }
    words
}

// The words of one block's content.
pub(crate) fn put_content(block: &[u8; BYTES], words: &mut [u16])
    requires { length words.old ≡ 253 }
    ensures { words.new ≡ content_from block.now 0 253 }
{
    words.copy_from_slice(&words_of(block)[2..2 + CONTENT]);
}
