// The log card's library for C and Rust: each export is the call of the crate `cardgate` that has its name, and promises
// the same. include/card.h says to the caller what is lent.
#![tactic(auto)]

ghost use Rattle.std.specs.Prelude.{◌≡◌};
ghost use Rattle.card.specs.Card.{written};
ghost use Rattle.cardgate.specs.Calls.{card_write, told, card_read};

// Writes a content into the 512 bytes of a block.
#[unsafe(no_mangle)]
pub extern "C" fn card_write(content: &[u64], block: &mut [u8]) -> u32
    ensures exact { written result block.new ≡ card_write content.now block.old }
{
    cardgate::card_write(content, block)
}

// Reads a block's 512 bytes into the words of its content.
#[unsafe(no_mangle)]
pub extern "C" fn card_read(block: &[u8], content: &mut [u64]) -> u32
    ensures exact { told result content.new ≡ card_read block.now content.old }
{
    cardgate::card_read(block, content)
}
