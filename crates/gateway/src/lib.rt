// The scheduler for C and Rust: the three calls of the crate `uplink` over a block of 132 words that the caller keeps,
// and a look at one flow of it.
// An opening, an arrival or a pick writes its words back on every path, a refused opening zeros, a refused arrival or
// pick the same as they were: so no copy of the record is left in the machine code.
// include/uplink.h says to the caller what is lent and what each number means.
#![tactic(auto)]

ghost use Rattle.std.specs.Prelude.{◌≡◌, []};
ghost use Rattle.gateway.specs.Gateway.{answered, lending};
ghost use Rattle.gateway.specs.Gateway.{gateway_opening, gateway_arrival, gateway_pick, gateway_depth};

mod answers;
mod image;

pub use answers::{arrival_answer, opening_answer, pick_answer, write_packet};
pub use image::{record_of, write_record};
use reply::Called;
use uplink::Record;

// The words of a block.
pub const BLOCK_WORDS: usize = 132;

// The words of a pick's reply.
pub const REPLY_WORDS: usize = 6;

// The words of a depth's reply.
const DEPTH_WORDS: usize = 4;

// What a call answers besides document 01's numbers 1 to 10, by its name in include/uplink.h. C is told a number, so
// each call gives 101 and 102 as it finds them.
const DONE: u32 = 0;

// Nothing waits.
const IDLE: u32 = 100;

// The block has not exactly the words of a record.
pub const REFUSED_RECORD: u32 = 101;

// The reply has not exactly 6 words, a depth's not exactly 4.
pub const REFUSED_REPLY: u32 = 102;

// Opens a table: its flows' shares and largest packets, and the link header of every packet.
#[tactic(auto, unfolding(crate::specs::Gateway::gateway_opening, crate::specs::Gateway::told))]
pub fn uplink_opening(
    shares: &[u32],
    largest: &[u32],
    header: u32,
    block: &mut [u64],
    lengths: &mut [u16],
    handles: &mut [u32],
) -> u64
    ensures exact { answered result (lending block.new lengths.new handles.new [])
        ≡ gateway_opening shares.now largest.now header
        (lending block.old lengths.old handles.old []) }
{
    let Some(words) = block.as_mut_array() else {
        return u64::from(REFUSED_RECORD);
    };
    let Called { next, reply } = Record::opening(shares, largest, header, lengths, handles);
    image::write_record(next, words);
    opening_answer(reply)
}

// A packet comes to a flow.
pub fn uplink_arrival(
    flow: u32,
    length: u32,
    handle: u32,
    block: &mut [u64],
    lengths: &mut [u16],
    handles: &mut [u32],
) -> u32
    ensures exact { answered result (lending block.new lengths.new handles.new [])
        ≡ gateway_arrival flow length handle
        (lending block.old lengths.old handles.old []) }
{
    let Some(words) = block.as_mut_array() else {
        return REFUSED_RECORD;
    };
    let held = image::record_of(words);
    let Called { next, reply } = held.arrival(flow, length, handle, lengths, handles);
    image::write_arrived(next, flow, words);
    arrival_answer(reply)
}

// The packet to send next.
pub fn uplink_pick(
    block: &mut [u64],
    lengths: &mut [u16],
    handles: &mut [u32],
    reply: &mut [u64],
) -> u32
    ensures exact { answered result
        (lending block.new lengths.new handles.new reply.new)
        ≡ gateway_pick
        (lending block.old lengths.old handles.old reply.old) }
{
    let Some(words) = block.as_mut_array() else {
        return REFUSED_RECORD;
    };
    let Some(told) = reply.as_mut_array() else {
        return REFUSED_REPLY;
    };
    let held = image::record_of(words);
    let Called { next, reply } = held.pick(lengths, handles);
    image::write_picked(next, reply, words);
    pick_answer(reply, told)
}

// How many packets wait in a flow, its share, largest packet and tag, in a reply of four words. The form of the record
// is not tested.
pub fn uplink_depth(flow: u32, block: &[u64], reply: &mut [u64]) -> u32
    ensures exact { answered result (lending block.now [] [] reply.new)
        ≡ gateway_depth flow (lending block.now [] [] reply.old) }
{
    let Some(words) = block.as_array() else {
        return REFUSED_RECORD;
    };
    let Some(told) = reply.as_mut_array() else {
        return REFUSED_REPLY;
    };
    match image::depth_of(words, flow) {
        Ok(depth) => {
            *told = depth;
            DONE
        }
        Err(why) => why.number(),
    }
}
