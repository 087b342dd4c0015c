// A block's content as 157 words of 64 bits, and back: specs/Content.antt. Words that do not fit their fields tell no
// content, so that nothing is cut off. Functions and no `From`, since neither words nor an entry is a type of this
// crate.
ghost use Rattle.std.specs.Prelude.{◌≡◌, length};
ghost use Rattle.below.specs.Below.{all_below};
ghost use Rattle.below.specs.Listed.{listed};
ghost use Rattle.cardgate.specs.Content.{entry_words, entries_words, content_words};
ghost use Rattle.cardgate.specs.Content.{entry_in, place_in, content_in, entry_fit, place_fit, content_fit, if_fit};

use crate::CONTENT_WORDS;
use card::Block;
use entries::{Entry, no_entry};

// The entry of five words, if they fit its fields; any word is a clock.
#[tactic(auto, using(std::proofs::lemmas::Bool::Decides::nat_tests), unfolding(crate::specs::Content::entry_in, crate::specs::Content::entry_fit))]
fn entry_in(words: &[u64]) -> Option<Entry>
    requires { length words.now ≡ 5 }
    ensures { result ≡ if_fit (entry_fit words.now) (entry_in words.now) }
{
    let kind = u8::try_from(words[0]).ok()?;
    let flow = u8::try_from(words[1]).ok()?;
    let length = u16::try_from(words[2]).ok()?;
    let handle = u32::try_from(words[3]).ok()?;
    Some(Entry {
        kind,
        flow,
        length,
        handle,
        clock: words[4],
    })
}

// The 31 entries, if the words of each fit: in a loop, since `array::try_from_fn` does not say which closure it calls.
fn entries_in(words: &[u64; CONTENT_WORDS]) -> Option<[Entry; 31]>
    ensures { result ≡ if_fit (all_below (place_fit words.now) 31) (listed (place_in words.now) 0 31) }
{
    let mut entries = [no_entry(); 31];
    for (place, entry) in entries.iter_mut().enumerate() {
        let at = 2 + 5 * place;
        *entry = entry_in(&words[at..at + 5])?;
    }
    Some(entries)
}

// The content that the words tell, if all fit their fields.
#[tactic(auto, using(std::proofs::lemmas::Bool::Decides::nat_tests), unfolding(crate::specs::Content::content_in, crate::specs::Content::content_fit))]
pub(crate) fn content_in(words: &[u64; CONTENT_WORDS]) -> Option<Block>
    ensures { result ≡ if_fit (content_fit words.now) (content_in words.now) }
{
    let number = u32::try_from(words[0]).ok()?;
    let count = u8::try_from(words[1]).ok()?;
    let entries = entries_in(words)?;
    Some(Block {
        number,
        count,
        entries,
    })
}

// The five words of an entry.
fn write_entry(entry: &Entry, words: &mut [u64])
    requires { length words.old ≡ 5 }
    ensures { words.new ≡ entry_words entry.now }
{
    words.copy_from_slice(&[
        u64::from(entry.kind),
        u64::from(entry.flow),
        u64::from(entry.length),
        u64::from(entry.handle),
        entry.clock,
    ]);
}

// The words of the 31 entries: lent by place, since no contract says what a loop over `chunks_exact_mut` leaves. The
// writer of a block has this loop over parts of sixteen bytes; one loop for both, with the writer of a part as a closure,
// is no shorter than the two.
fn write_entries(entries: &[Entry; 31], words: &mut [u64])
    requires { length words.old ≡ 155 }
    ensures { words.new ≡ entries_words entries.now }
{
    for (place, entry) in entries.iter().enumerate() {
        let at = 5 * place;
        write_entry(entry, &mut words[at..at + 5]);
    }
}

// The words of a content.
pub(crate) fn write_content(block: &Block, words: &mut [u64; CONTENT_WORDS])
    ensures { words.new ≡ content_words block.now }
{
    words[0] = u64::from(block.number);
    words[1] = u64::from(block.count);
    write_entries(&block.entries, &mut words[2..157]);
}
