// The blocks that hold a content.
ghost use Rattle.std.specs.Prelude.{◌≡◌, ◌+◌, ◌*◌, ◌/◌, ◌%◌, ◌<◌, ◌≤◌, length, get_or, set};
ghost use Rattle.blocks.specs.Blocks.{file_bytes, headed_block, block_words};
ghost use Rattle.blocks.specs.Calls.{PutBlocks};
ghost use Rattle.blocks.specs.Loops.Written.{block_part, file_part};

use crate::{BYTES, CONTENT, MOST, checksum};

// Word `k` of a block.
fn put_word(block: &mut [u8], k: usize, word: u16)
    requires { (k < 65536) × (2 * k + 1 < length block.old) }
    ensures { block.new ≡ set (set block.old (2 * k) (word / 256)) (2 * k + 1) (word % 256) }
{
    block[2 * k..2 * k + 2].copy_from_slice(&word.to_be_bytes());
}

// The words of a content, which fill so many blocks.
#[derive(Clone, Copy)]
struct Filled<'a> {
    words: &'a [u16],
    blocks: usize,
    ghost whole: { blocks * 253 ≤ length words.now },
    ghost few: { blocks ≤ 101 },
}

impl Filled<'_> {
    // Word `k` of block `b` before its check: its number from 1, the number of blocks, its content.
    fn head_word(self, b: usize, k: usize) -> u16
        requires { (b < self.blocks) × (k < 255) }
        ensures { result ≡ get_or (headed_block self.entry.blocks self.entry.words.now b) k 0 }
    {
        match k {
            0 => (b + 1) as u16,
            1 => self.blocks as u16,
            _ => self.words[b * CONTENT + (k - 2)],
        }
    }

    // The words of block `b` before its check.
    fn put_head(self, b: usize, block: &mut [u8])
        requires { (b < self.blocks) × (length block.old ≡ 512) }
        ensures { block.new ≡ block_part self.entry.blocks self.entry.words.now b 255 block.old }
    {
        for k in 0..255 {
            put_word(block, k, self.head_word(b, k));
        }
    }

    // Block `b`, with its check.
    fn put_block(self, b: usize, block: &mut [u8])
        requires { (b < self.blocks) × (length block.old ≡ 512) }
        ensures { block.new ≡ file_bytes (block_words self.entry.blocks self.entry.words.now b) }
    {
        self.put_head(b, block);
        let check = checksum::check(block.as_array().unwrap());
        put_word(block, 255, check);
    }

    // The blocks, one after the other.
    fn put_each(self, file: &mut [u8])
        requires { 512 * self.blocks ≤ length file.old }
        ensures { file.new ≡ file_part self.entry.blocks self.entry.words.now self.entry.blocks file.old }
    {
        for b in 0..self.blocks {
            let at = BYTES * b;
            self.put_block(b, &mut file[at..at + BYTES]);
        }
    }
}

// The blocks of a content that fills at most 101 to the last word, in front of the buffer, which keeps the rest; of another, or where the
// buffer is shorter, nothing.
pub fn put_blocks(content: &[u16], file: &mut [u8])
    ensures { PutBlocks content.now file.old file.new }
{
    let blocks = content.len() / CONTENT;
    if content.len() != blocks * CONTENT {
        return;
    }
    if MOST < blocks {
        return;
    }
    if file.len() < BYTES * blocks {
        return;
    }
    let filled = Filled {
        words: content,
        blocks,
    };
    filled.put_each(file);
}
