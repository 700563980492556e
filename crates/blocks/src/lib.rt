// Blocks of 512 bytes: 253 words of content each, with a number, the number of blocks and a check.
#![tactic(auto)]

mod block;
pub mod checksum;
pub mod reading;
pub mod writing;

// The bytes of a block, the words of its content, and how many blocks a file has at most.
pub const BYTES: usize = 512;

pub const CONTENT: usize = 253;

pub const MOST: usize = 101;
