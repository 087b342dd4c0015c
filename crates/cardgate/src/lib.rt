// Reader and writer of the log card's blocks for C (document 02 d): the two calls of the crate `card` over a content of
// 157 words that the caller keeps. include/card.h says to the caller what is lent.
#![tactic(auto)]

ghost use Rattle.std.specs.Prelude.{◌≡◌};
ghost use Rattle.card.specs.Card.{written};
ghost use Rattle.cardgate.specs.Calls.{call_number, call_answer, card_write, told, card_read};
ghost use Rattle.cardgate.specs.declared.CallRefusal.TheVariants.{Card};

mod content;

use card::{Refusal, read_block, write_block};
use content::{content_in, write_content};
use sums::BLOCK_BYTES;

// The words of a content.
const CONTENT_WORDS: usize = 157;

// What a call answers where it is done, by its name in include/card.h.
const DONE: u32 = 0;

// The content has not exactly 157 words, by its name in include/card.h.
const REFUSED_CONTENT: u32 = 101;

// Why a call is refused.
enum CallRefusal {
    // The content has not exactly 157 words.
    Content,
    // Document 02 d) refuses the block or the content.
    Card(Refusal),
}

impl From<Refusal> for CallRefusal {
    ghost from_gives = { λ refusal own. own ≡ Card refusal };

    fn from(refusal: Refusal) -> CallRefusal {
        CallRefusal::Card(refusal)
    }
}

// The number of a refusal, by its name in include/card.h.
impl From<CallRefusal> for u32 {
    ghost from_gives = { λ refusal number. number ≡ call_number refusal };

    fn from(refusal: CallRefusal) -> u32 {
        match refusal {
            CallRefusal::Content => REFUSED_CONTENT,
            CallRefusal::Card(refusal) => u32::from(refusal),
        }
    }
}

// What a call answers, in one number.
fn answer(outcome: Result<(), CallRefusal>) -> u32
    ensures { result ≡ call_answer outcome }
{
    match outcome {
        Ok(()) => DONE,
        Err(refusal) => u32::from(refusal),
    }
}

// Writes a content into the 512 bytes of a block, or says why it is refused.
#[tactic(auto, unfolding(crate::specs::Calls::card_write))]
fn write(content: &[u64], block: &mut [u8]) -> Result<(), CallRefusal>
    ensures { written (call_answer result) block.new ≡ card_write content.now block.old }
{
    let Some(words) = content.as_array() else {
        return Err(CallRefusal::Content);
    };
    if block.len() != BLOCK_BYTES {
        return Err(CallRefusal::Card(Refusal::Size));
    }
    let held = content_in(words).ok_or(Refusal::Field)?;
    write_block(held, block)?;
    Ok(())
}

// Reads a block's 512 bytes into the words of its content, or says why it is refused.
#[tactic(auto, unfolding(crate::specs::Calls::card_read))]
fn read(block: &[u8], content: &mut [u64]) -> Result<(), CallRefusal>
    ensures { told (call_answer result) content.new ≡ card_read block.now content.old }
{
    let Some(words) = content.as_mut_array() else {
        return Err(CallRefusal::Content);
    };
    let held = read_block(block)?;
    write_content(&held, words);
    Ok(())
}

// Writes a content into the 512 bytes of a block.
pub fn card_write(content: &[u64], block: &mut [u8]) -> u32
    ensures exact { written result block.new ≡ card_write content.now block.old }
{
    answer(write(content, block))
}

// Reads a block's 512 bytes into the words of its content.
pub fn card_read(block: &[u8], content: &mut [u64]) -> u32
    ensures exact { told result content.new ≡ card_read block.now content.old }
{
    answer(read(block, content))
}
