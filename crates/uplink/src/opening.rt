// An opening: document 01, "The three calls", with refusals 1, 3, then flow by flow 4 before 5, then 6.
ghost use Rattle.std.specs.Prelude.{◌≡◌, replicate};
ghost use Rattle.reply.specs.Reply.{done_reply};
ghost use Rattle.reply.specs.State.{outcome};
ghost use Rattle.queues.specs.Openable.{Openable};
ghost use Rattle.uplink.specs.Opening.{new_record, opening_rule};

use crate::{Opened, Record};
use queues::Queues;
use reply::Called;

impl Record {
    // The record of a table of 1 to 64 flows whose packets carry a link header of `header` bytes, with both memories
    // cleared.
    #[tactic(auto, using(crate::proofs::Opens::opening_refused))]
    pub fn opening(
        shares: &[u32],
        largest: &[u32],
        header: u32,
        lengths: &mut [u16],
        handles: &mut [u32],
    ) -> Opened
        ensures exact { outcome (done_reply result.reply) result.next lengths.new handles.new
            ≡ opening_rule shares.now largest.now header lengths.old
            handles.old }
    {
        let reply = queues::opening_reply(shares, largest, header, lengths, handles);
        let next = match reply {
            Ok(()) => Record::opened(shares, largest, header as u16, lengths, handles),
            Err(_) => Record::blank(),
        };
        Called { next, reply }
    }

    // The record of a table that nothing refuses, and both memories cleared.
    fn opened(
        shares: &[u32],
        largest: &[u32],
        header: u16,
        lengths: &mut [u16],
        handles: &mut [u32],
    ) -> Record
        requires { Openable shares.now largest.now header lengths.old handles.old }
        ensures { (result ≡ new_record shares.now largest.now header)
            × (lengths.new ≡ replicate 4096 0)
            × (handles.new ≡ replicate 4096 0) }
    {
        queues::clear(lengths, handles);
        let flows = shares.len();
        let queues = Queues::opened(shares, largest);
        let width = queues.widest(flows as u32, header);
        let count = flows as u16;
        Record {
            flows: count,
            header,
            width: width as u32,
            queues,
            ..Record::blank()
        }
    }
}
