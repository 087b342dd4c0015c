// Blocks of the log card (document 02 d): writing one into 512 lent bytes and reading one back. Both take any input at
// all and end with what was wanted or with a refusal; nothing is written on any refusal.
// Bytes 0 to 3 hold the block's number, 4 the number of entries, 5 to 11 zeros, 12 to 507 the 31 entries and 508 to 511
// the two sums.
#![tactic(auto)]

ghost use Rattle.std.specs.Prelude.{◌≡◌};
ghost use Rattle.card.specs.Card.{refusal_number};

mod legal;
mod reader;
mod writer;

use entries::Entry;
pub use reader::read_block;
pub use writer::write_block;

// A block's content: its number, how many entries are used (1 to 31), and all 31, the unused ones zeros. Any content may
// be handed to the writer, which refuses another count and other unused entries: so all 31 stand beside their count.
#[derive(Clone, Copy)]
pub struct Block {
    pub number: u32,
    pub count: u8,
    pub entries: [Entry; 31],
}

// Why a block was refused, by the number that document 02 d) gives it.
#[derive(Clone, Copy, PartialEq, Eq)]
pub enum Refusal {
    // The block has not exactly 512 bytes.
    Size = 1,
    // The sums that stand in the block are not those of its bytes.
    Sums = 11,
    // A field is outside the rules.
    Field = 12,
}

// The number of a refusal.
impl From<Refusal> for u32 {
    ghost from_gives = { λ refusal number. number ≡ refusal_number refusal };

    fn from(refusal: Refusal) -> u32 {
        refusal as u32
    }
}
