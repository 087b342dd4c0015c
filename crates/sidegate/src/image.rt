// The plain engine's record as a block of 133 words, and back: specs/Image.antt. Words 0 to 131 are the first engine's
// block, read and written by the crate `gateway`, with the tags in two's complement; word 132 is the sum.
// Nothing is tested here: any words are a record's, and the form test is in the calls. Functions and no `From`, since
// neither an array nor the record is a type of this crate.
ghost use Rattle.std.specs.Prelude.{◌≡◌};
ghost use Rattle.sidegate.specs.Image.{plain_words, plain_of};

use crate::BLOCK_WORDS;
use backward::Record;
use signs::SignedTags;
use std::array;
use tags::{ServerTags, ServerTicks};

// The record that a block tells.
pub(crate) fn plain_of(words: &[u64; BLOCK_WORDS]) -> Record
    ensures { result ≡ plain_of words.now }
{
    let first = gateway::record_of(words.first_chunk().unwrap());
    Record {
        flows: first.flows,
        header: first.header,
        width: first.width,
        sum: ServerTicks(words[132]),
        clock: first.clock,
        link: first.link,
        tags: SignedTags(array::from_fn(|flow| first.tags.0[flow].cast_signed())),
        queues: first.queues,
        turn: first.turn,
    }
}

// The block of a record.
pub(crate) fn write_plain(r: Record, words: &mut [u64; BLOCK_WORDS])
    ensures { words.new ≡ plain_words r }
{
    let first = uplink::Record {
        flows: r.flows,
        header: r.header,
        width: r.width,
        clock: r.clock,
        link: r.link,
        tags: ServerTags(array::from_fn(|flow| r.tags.0[flow].cast_unsigned())),
        queues: r.queues,
        turn: r.turn,
    };
    words[132] = r.sum.0;
    gateway::write_record(first, words.first_chunk_mut().unwrap());
}
