// What the caller is told of a reply, by either engine: document 01's number, 0 for done and 100 for Idle.
ghost use Rattle.std.specs.Prelude.{◌≡◌};
ghost use Rattle.reply.specs.Reply.{done, done_reply};
ghost use Rattle.uplink.specs.PickReply.{pick_reply};
ghost use Rattle.gateway.specs.Gateway.{number_of, with_flow, values_or};

use crate::{DONE, IDLE, REPLY_WORDS};
use reply::Refusal;
use uplink::Packet;

// What an opening answers: the number, with the refused flow in the high 32 bits.
pub fn opening_answer(reply: Result<(), Refusal>) -> u64
    ensures { result ≡ with_flow (done_reply reply) }
{
    match reply {
        Ok(()) => u64::from(DONE),
        Err(why) => u64::from(why.number()) + (u64::from(why.flow()) << 32),
    }
}

// What an arrival answers.
pub fn arrival_answer(reply: Result<(), Refusal>) -> u32
    ensures { result ≡ number_of (done_reply reply) }
{
    match reply {
        Ok(()) => DONE,
        Err(why) => why.number(),
    }
}

// What a pick answers, with the packet in the reply where there is one.
pub fn pick_answer(picked: Result<Option<Packet>, Refusal>, reply: &mut [u64; REPLY_WORDS]) -> u32
    ensures { (result ≡ number_of (pick_reply picked))
        × (reply.new ≡ values_or (pick_reply picked) reply.old) }
{
    match picked {
        Ok(Some(packet)) => {
            write_packet(packet, reply);
            DONE
        }
        Ok(None) => IDLE,
        Err(why) => why.number(),
    }
}

// The packet to send, in a reply of six words.
pub fn write_packet(packet: Packet, reply: &mut [u64; REPLY_WORDS])
    ensures { done reply.new ≡ pick_reply (Ok (Some packet)) }
{
    *reply = [
        u64::from(packet.flow),
        u64::from(packet.length),
        u64::from(packet.handle),
        packet.tag.0,
        u64::from(packet.leapt),
        packet.clock.0,
    ];
}
