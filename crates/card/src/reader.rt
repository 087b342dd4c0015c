// A block read: the size, the sums, the head's zeros and then the content, tested as it was for the writer.
ghost use Rattle.std.specs.Prelude.{◌≡◌};
ghost use Rattle.below.specs.Listed.{listed};
ghost use Rattle.card.specs.Block.{entry_at, block_of};
ghost use Rattle.card.specs.Card.{read_rule};

use crate::{Block, Refusal};
use entries::{Entry, read_entry};
use fields::read_number;
use std::array;
use sums::{BLOCK_BYTES, sums_right};

// The 31 entries of a block.
fn entries_of(bytes: &[u8; BLOCK_BYTES]) -> [Entry; 31]
    ensures { result ≡ listed (entry_at bytes.now) 0 31 }
{
    array::from_fn(|place| {
        let at = 12 + 16 * place;
        read_entry(&bytes[at..at + 16])
    })
}

// What a block's bytes say, legal or not.
fn block_of(bytes: &[u8; BLOCK_BYTES]) -> Block
    ensures { result ≡ block_of bytes.now }
{
    let number = read_number(&bytes[0..4]) as u32;
    Block {
        number,
        count: bytes[4],
        entries: entries_of(bytes),
    }
}

// Reads a block: its content, or why it is refused.
pub fn read_block(bytes: &[u8]) -> Result<Block, Refusal>
    ensures exact { result ≡ read_rule bytes.now }
{
    let Some(bytes) = bytes.as_array() else {
        return Err(Refusal::Size);
    };
    if !sums_right(bytes) {
        return Err(Refusal::Sums);
    }
    let zeros = read_number(&bytes[5..12]);
    let block = block_of(bytes);
    if zeros != 0 || !block.is_legal() {
        return Err(Refusal::Field);
    }
    Ok(block)
}
