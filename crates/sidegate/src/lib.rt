// The plain engine for C: the three calls of the crate `backward` over a block of 133 words that the caller keeps, so
// that it can be tested and measured from outside. include/backward.h says to the caller what is lent.
// A call has five lines in common with the crate `gateway`'s: a trait over both engines, its
// two impls and the generic calls beside these take some ninety lines more. C is told a number, so 101 and 102 are given
// as they are found.
#![tactic(auto)]

ghost use Rattle.std.specs.Prelude.{◌≡◌, []};
ghost use Rattle.gateway.specs.Gateway.{answered, lending};
ghost use Rattle.sidegate.specs.Plain.{plain_opening, plain_arrival, plain_pick};

mod image;

use backward::Record;
use gateway::{REFUSED_RECORD, REFUSED_REPLY, arrival_answer, opening_answer, pick_answer};
use reply::Called;

// The words of a block.
const BLOCK_WORDS: usize = 133;

// Opens a table: its flows' shares and largest packets, and the link header of every packet.
pub fn backward_opening(
    shares: &[u32],
    largest: &[u32],
    header: u32,
    block: &mut [u64],
    lengths: &mut [u16],
    handles: &mut [u32],
) -> u64
    ensures exact { answered result (lending block.new lengths.new handles.new [])
        ≡ plain_opening shares.now largest.now header
        (lending block.old lengths.old handles.old []) }
{
    let Some(words) = block.as_mut_array() else {
        return u64::from(REFUSED_RECORD);
    };
    let Called { next, reply } = Record::opening(shares, largest, header, lengths, handles);
    image::write_plain(next, words);
    opening_answer(reply)
}

// A packet comes to a flow.
pub fn backward_arrival(
    flow: u32,
    length: u32,
    handle: u32,
    block: &mut [u64],
    lengths: &mut [u16],
    handles: &mut [u32],
) -> u32
    ensures exact { answered result (lending block.new lengths.new handles.new [])
        ≡ plain_arrival flow length handle
        (lending block.old lengths.old handles.old []) }
{
    let Some(words) = block.as_mut_array() else {
        return REFUSED_RECORD;
    };
    let held = image::plain_of(words);
    let Called { next, reply } = held.arrival(flow, length, handle, lengths, handles);
    image::write_plain(next, words);
    arrival_answer(reply)
}

// The packet to send next.
pub fn backward_pick(
    block: &mut [u64],
    lengths: &mut [u16],
    handles: &mut [u32],
    reply: &mut [u64],
) -> u32
    ensures exact { answered result
        (lending block.new lengths.new handles.new reply.new)
        ≡ plain_pick
        (lending block.old lengths.old handles.old reply.old) }
{
    let Some(words) = block.as_mut_array() else {
        return REFUSED_RECORD;
    };
    let Some(told) = reply.as_mut_array() else {
        return REFUSED_REPLY;
    };
    let held = image::plain_of(words);
    let Called { next, reply } = held.pick(lengths, handles);
    image::write_plain(next, words);
    pick_answer(reply, told)
}
