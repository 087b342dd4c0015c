// A block written: head, entries and sums, each into its own part of the lent bytes.
ghost use Rattle.std.specs.Prelude.{◌≡◌, length};
ghost use Rattle.card.specs.Block.{entries_bytes, body_bytes, block_bytes};
ghost use Rattle.card.specs.Card.{answer_of, written, write_rule};

use crate::{Block, Refusal};
use entries::{Entry, write_entry};
use fields::write_number;
use sums::{BLOCK_BYTES, sums_of};

// The 31 entries, sixteen bytes each: lent by place, since no contract says what a loop over `chunks_exact_mut` leaves.
fn fill_entries(entries: &[Entry; 31], bytes: &mut [u8])
    requires { length bytes.old ≡ 496 }
    ensures { bytes.new ≡ entries_bytes entries.now }
{
    for (place, entry) in entries.iter().enumerate() {
        let at = 16 * place;
        write_entry(*entry, &mut bytes[at..at + 16]);
    }
}

// Bytes 0 to 507.
fn fill_body(block: &Block, bytes: &mut [u8])
    requires { length bytes.old ≡ 508 }
    ensures { bytes.new ≡ body_bytes block.now }
{
    write_number(&mut bytes[0..4], u64::from(block.number));
    bytes[4] = block.count;
    bytes[5..12].fill(0);
    fill_entries(&block.entries, &mut bytes[12..508]);
}

// All 512 bytes: the sums are those of what was just written.
fn fill_block(block: &Block, bytes: &mut [u8; BLOCK_BYTES])
    ensures { bytes.new ≡ block_bytes block.now }
{
    fill_body(block, &mut bytes[0..508]);
    let sums = sums_of(bytes);
    write_number(&mut bytes[508..510], u64::from(sums.first));
    write_number(&mut bytes[510..512], u64::from(sums.second));
}

// Writes a block, or says why it is refused, and then nothing is written.
pub fn write_block(block: Block, bytes: &mut [u8]) -> Result<(), Refusal>
    ensures exact { written (answer_of result) bytes.new ≡ write_rule block bytes.old }
{
    let Some(bytes) = bytes.as_mut_array() else {
        return Err(Refusal::Size);
    };
    if !block.is_legal() {
        return Err(Refusal::Field);
    }
    fill_block(&block, bytes);
    Ok(())
}
