// An opening: document 01, "The three calls", with its refusals 1, 3, 4, 5, 6. Nothing has leapt, so the record is the
// first engine's with signed tags and a sum of 0.
ghost use Rattle.std.specs.Prelude.{◌≡◌};
ghost use Rattle.reply.specs.Reply.{done_reply};
ghost use Rattle.reply.specs.State.{outcome};
ghost use Rattle.backward.specs.Record.{unleapt};
ghost use Rattle.backward.specs.Opening.{opening_rule};

use crate::{Opened, Record};
use reply::Called;
use signs::SignedTags;
use tags::ServerTicks;

// The first engine's record before anything was tagged, as this engine's. It is no `From`, for it leaves the tags out.
pub(crate) fn unleapt(r: uplink::Record) -> Record
    ensures { result ≡ unleapt r }
{
    Record {
        flows: r.flows,
        header: r.header,
        width: r.width,
        sum: ServerTicks(0),
        clock: r.clock,
        link: r.link,
        tags: SignedTags([0; 64]),
        queues: r.queues,
        turn: r.turn,
    }
}

impl Record {
    // The record of a table of 1 to 64 flows whose packets carry a link header of `header` bytes, with both memories
    // cleared.
    pub fn opening(
        shares: &[u32],
        largest: &[u32],
        header: u32,
        lengths: &mut [u16],
        handles: &mut [u32],
    ) -> Opened
        ensures exact { outcome (done_reply result.reply) result.next
            lengths.new handles.new
            ≡ opening_rule shares.now largest.now header
            lengths.old handles.old }
    {
        let opened = uplink::Record::opening(shares, largest, header, lengths, handles);
        Called {
            next: unleapt(opened.next),
            reply: opened.reply,
        }
    }
}
