// The record as a block of 132 words, and back: specs/Image.antt. The words stand in the record's own order.
// Word 0 holds the number of flows in its low 16 bits, the header in the next 16 and the leap width in the high 32.
// Nothing is tested here: any words are a record's, and the form test is in the calls. Functions and no `From`, since
// neither an array nor the record is a type of this crate.
ghost use Rattle.std.specs.Prelude.{◌≡◌, ◌%◌, ◌<◌, length, get_or};
ghost use Rattle.uplink.specs.PickReply.{pick_reply};
ghost use Rattle.gateway.specs.Depth.{values_reply, depth_reply};
ghost use Rattle.gateway.specs.Image.{four_at, field_words, field_in, words_of, record_of};
ghost use Rattle.gateway.specs.Step.{step_words, picked_words};

use crate::BLOCK_WORDS;
use queues::Queues;
use reply::Refusal;
use std::array;
use tags::{LinkTicks, ServerTags, ServerTicks};
use uplink::{Packet, Record};

// The word at which the tags of the 64 flows begin, a word for each.
const TAGS: usize = 3;

// The word at which the shares begin, in 16 words with four flows to a word, as in the three fields behind them.
const SHARE: usize = 67;

// The largest packets.
const LARGEST: usize = 83;

// The first places.
const FIRST: usize = 99;

// The numbers waiting.
const WAITING: usize = 115;

// The word of the turn, which is the last one.
const TURN: usize = 131;

// The entry of a flow in a field, from the field's 16 words.
#[tactic(auto, using(crate::proofs::Blocks::entry_read))]
fn entry_in(words: &[u64], flow: usize) -> u64
    requires { (length words.now ≡ 16) × (flow < 64) }
    ensures { result ≡ get_or (field_in words.now) flow 0 }
{
    (words[flow / 4] >> (16 * (flow % 4))) % 65536
}

// A field from its 16 words. Entry by entry, as `entry_in` reads one, it takes 2,300 instructions a call more.
fn field_in(words: &[u64]) -> [u16; 64]
    requires { length words.now ≡ 16 }
    ensures { result ≡ field_in words.now }
{
    let mut field = [0; 64];
    for (k, &word) in words.iter().enumerate() {
        field[4 * k] = (word % 65536) as u16;
        field[4 * k + 1] = ((word >> 16) % 65536) as u16;
        field[4 * k + 2] = ((word >> 32) % 65536) as u16;
        field[4 * k + 3] = (word >> 48) as u16;
    }
    field
}

// The record that a block tells.
pub fn record_of(words: &[u64; BLOCK_WORDS]) -> Record
    ensures { result ≡ record_of words.now }
{
    Record {
        flows: (words[0] % 65536) as u16,
        header: ((words[0] >> 16) % 65536) as u16,
        width: (words[0] >> 32) as u32,
        clock: ServerTicks(words[1]),
        link: LinkTicks(words[2]),
        tags: ServerTags(words[TAGS..SHARE].try_into().unwrap()),
        queues: Queues {
            share: field_in(&words[SHARE..LARGEST]),
            largest: field_in(&words[LARGEST..FIRST]),
            first: field_in(&words[FIRST..WAITING]),
            waiting: field_in(&words[WAITING..TURN]),
        },
        turn: words[TURN],
    }
}

// The word of four entries of a field, from 4 k on.
fn word_at(field: &[u16; 64], k: usize) -> u64
    requires { k < 16 }
    ensures { result ≡ four_at field.now k }
{
    u64::from(field[4 * k])
        + (u64::from(field[4 * k + 1]) << 16)
        + (u64::from(field[4 * k + 2]) << 32)
        + (u64::from(field[4 * k + 3]) << 48)
}

// The 16 words of a field.
fn field_words(field: &[u16; 64]) -> [u64; 16]
    ensures { result ≡ field_words field.now }
{
    array::from_fn(|k| word_at(field, k))
}

// The block of a record.
pub fn write_record(r: Record, words: &mut [u64; BLOCK_WORDS])
    ensures { words.new ≡ words_of r }
{
    words[0] = u64::from(r.flows) + (u64::from(r.header) << 16) + (u64::from(r.width) << 32);
    words[1] = r.clock.0;
    words[2] = r.link.0;
    words[TAGS..SHARE].copy_from_slice(&r.tags.0);
    words[SHARE..LARGEST].copy_from_slice(&field_words(&r.queues.share));
    words[LARGEST..FIRST].copy_from_slice(&field_words(&r.queues.largest));
    words[FIRST..WAITING].copy_from_slice(&field_words(&r.queues.first));
    words[WAITING..TURN].copy_from_slice(&field_words(&r.queues.waiting));
    words[TURN] = r.turn;
}

// The words that a step of `flow` changes in a block: six. To write all 132 takes 295 instructions a call more.
fn write_step(r: Record, flow: u32, words: &mut [u64; BLOCK_WORDS])
    requires { flow < 64 }
    ensures { words.new ≡ step_words words.old r flow }
{
    let f = flow as usize;
    let k = f / 4;
    words[1] = r.clock.0;
    words[2] = r.link.0;
    words[TAGS + f] = r.tags.tag_at(flow).0;
    words[FIRST + k] = word_at(&r.queues.first, k);
    words[WAITING + k] = word_at(&r.queues.waiting, k);
    words[TURN] = r.turn;
}

// The block after an arrival at `flow`.
pub(crate) fn write_arrived(r: Record, flow: u32, words: &mut [u64; BLOCK_WORDS])
    ensures { words.new ≡ step_words words.old r (flow % 64) }
{
    write_step(r, flow % 64, words);
}

// The block after a pick: where nothing waits the tags are written besides.
pub(crate) fn write_picked(
    r: Record,
    reply: Result<Option<Packet>, Refusal>,
    words: &mut [u64; BLOCK_WORDS],
)
    ensures { words.new ≡ picked_words words.old r (pick_reply reply) }
{
    let flow = match reply {
        Ok(Some(packet)) => packet.flow % 64,
        _ => 0,
    };
    write_step(r, flow, words);
    if let Ok(None) = reply {
        words[TAGS..SHARE].copy_from_slice(&r.tags.0);
    }
}

// How many packets wait in a flow, its share, largest packet and tag. Refused where the table has no such flow.
#[tactic(auto, using(crate::proofs::Blocks::depth_refused, crate::proofs::Blocks::depth_given))]
pub(crate) fn depth_of(words: &[u64; BLOCK_WORDS], flow: u32) -> Result<[u64; 4], Refusal>
    ensures { values_reply result ≡ depth_reply (record_of words.now) flow }
{
    if u64::from(flow) >= words[0] % 65536 || flow >= 64 {
        return Err(Refusal::NoFlow);
    }
    let f = flow as usize;
    Ok([
        entry_in(&words[WAITING..TURN], f),
        entry_in(&words[SHARE..LARGEST], f),
        entry_in(&words[LARGEST..FIRST], f),
        words[TAGS + f],
    ])
}
