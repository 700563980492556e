// Whether the blocks of a file are whole, and the words of their content.
ghost use Rattle.std.specs.Prelude.{◌≡◌, ◌+◌, ◌*◌, ◌/◌, ◌≤◌, ◌<◌, length};
ghost use Rattle.problem.specs.Refused.{told};
ghost use Rattle.problem.specs.Lists.{every};
ghost use Rattle.blocks.specs.Reading.{content_word};
ghost use Rattle.blocks.specs.Tests.Whole.{good_block};
ghost use Rattle.blocks.specs.Calls.{RefusalOfFile, PutContent};
ghost use Rattle.blocks.specs.Loops.Read.{good_in, content_part};

use crate::{BYTES, CONTENT, MOST, block, checksum};
use problem::refusal::Refusal;

// Whether a block has its number, that of blocks and its check.
fn is_good(block: &[u8; BYTES], number: usize, blocks: usize) -> bool
    ensures { result ≡ good_in block.now number blocks }
{
    usize::from(block::word(block, 0)) == number
        && usize::from(block::word(block, 1)) == blocks
        && block::word(block, 255) == checksum::check(block)
}

// Whether every block is good.
fn all_good(file: &[u8], blocks: usize) -> bool
    requires { (length file.now ≡ blocks * 512) × (blocks ≤ 101) }
    ensures { result ≡ every blocks (good_block file.now) }
{
    (0..blocks).all(|b| is_good(block::block_at(file, b), b + 1, blocks))
}

// 14, or none.
pub fn refusal_of_file(file: &[u8]) -> Result<(), Refusal>
    ensures { RefusalOfFile file.now (told result) }
{
    let blocks = file.len() / BYTES;
    if file.len() != blocks * BYTES {
        return Err(Refusal::Blocks);
    }
    if blocks < 1 {
        return Err(Refusal::Blocks);
    }
    if MOST < blocks {
        return Err(Refusal::Blocks);
    }
    if all_good(file, blocks) {
        return Ok(());
    }
    Err(Refusal::Blocks)
}

// Word `k` of the content, 0 past the end: 253 words of each block after its first two.
pub fn content_word(file: &[u8], k: usize) -> u16
    ensures { result ≡ content_word file.now k }
{
    if k < file.len() {
        return block::word(file, 256 * (k / CONTENT) + (2 + k % CONTENT));
    }
    0
}

// The words of the content of the blocks before `blocks`, each where it belongs.
fn put_each(file: &[u8], blocks: usize, words: &mut [u16])
    requires { (blocks * 512 ≤ length file.now) × (blocks * 253 ≤ length words.old) }
    ensures { words.new ≡ content_part file.now blocks words.old }
{
    for b in 0..blocks {
        let at = b * CONTENT;
        block::put_content(block::block_at(file, b), &mut words[at..at + CONTENT]);
    }
}

// The words of the content of the file's whole blocks in front of the lent words, which keep the rest; where they are fewer, nothing.
pub fn put_content(file: &[u8], words: &mut [u16])
    ensures { PutContent file.now words.old words.new }
{
    let blocks = file.len() / BYTES;
    if words.len() < blocks * CONTENT {
        return;
    }
    put_each(file, blocks, words);
}
