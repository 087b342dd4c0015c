// The engines that a script can be run by: a scheduler's record with document 01's three calls.
ghost use Rattle.std.specs.Prelude.{◌≡◌};
ghost use Rattle.reply.specs.Reply.{done_reply};
ghost use Rattle.reply.specs.State.{state, outcome};
ghost use Rattle.uplink.specs.PickReply.{pick_reply};
ghost use Rattle.lines.specs.Rules.{Rules, first_rules, plain_rules};

use reply::Called;
use uplink::Packet;

// What a scheduler knows between two calls, and the calls. `rules` are what they give: document 01's, as each engine
// keeps them.
pub trait Engine: Copy {
    ghost rules: { Rules Self };

    // The record before an opening.
    fn blank() -> Self
        ensures { result ≡ rules.blank };

    // The record of a table whose packets carry a link header of `header` bytes.
    fn opening(
        shares: &[u32],
        largest: &[u32],
        header: u32,
        lengths: &mut [u16],
        handles: &mut [u32],
    ) -> Called<Self, ()>
        ensures { outcome (done_reply result.reply) result.next lengths.new handles.new
            ≡ rules.opening shares.now largest.now header lengths.old handles.old };

    // A packet of `length` bytes, known to the caller by `handle`, comes to `flow`.
    fn arrival(
        self,
        flow: u32,
        length: u32,
        handle: u32,
        lengths: &mut [u16],
        handles: &mut [u32],
    ) -> Called<Self, ()>
        ensures { outcome (done_reply result.reply) result.next lengths.new handles.new
            ≡ rules.arrival (state self lengths.old handles.old) flow length handle };

    // The next packet to send.
    fn pick(self, lengths: &mut [u16], handles: &mut [u32]) -> Called<Self, Option<Packet>>
        ensures { outcome (pick_reply result.reply) result.next lengths.new handles.new
            ≡ rules.pick (state self lengths.old handles.old) };
}

// The first engine, by leap forward: the calls are its record's own.
impl Engine for uplink::Record {
    ghost rules = { first_rules };

    fn blank() -> uplink::Record {
        uplink::Record::blank()
    }

    fn opening(
        shares: &[u32],
        largest: &[u32],
        header: u32,
        lengths: &mut [u16],
        handles: &mut [u32],
    ) -> Called<uplink::Record, ()> {
        uplink::Record::opening(shares, largest, header, lengths, handles)
    }

    fn arrival(
        self,
        flow: u32,
        length: u32,
        handle: u32,
        lengths: &mut [u16],
        handles: &mut [u32],
    ) -> Called<uplink::Record, ()> {
        uplink::Record::arrival(self, flow, length, handle, lengths, handles)
    }

    fn pick(
        self,
        lengths: &mut [u16],
        handles: &mut [u32],
    ) -> Called<uplink::Record, Option<Packet>> {
        uplink::Record::pick(self, lengths, handles)
    }
}

// The plain engine, by leap backward: likewise.
impl Engine for backward::Record {
    ghost rules = { plain_rules };

    fn blank() -> backward::Record {
        backward::Record::blank()
    }

    fn opening(
        shares: &[u32],
        largest: &[u32],
        header: u32,
        lengths: &mut [u16],
        handles: &mut [u32],
    ) -> Called<backward::Record, ()> {
        backward::Record::opening(shares, largest, header, lengths, handles)
    }

    fn arrival(
        self,
        flow: u32,
        length: u32,
        handle: u32,
        lengths: &mut [u16],
        handles: &mut [u32],
    ) -> Called<backward::Record, ()> {
        backward::Record::arrival(self, flow, length, handle, lengths, handles)
    }

    fn pick(
        self,
        lengths: &mut [u16],
        handles: &mut [u32],
    ) -> Called<backward::Record, Option<Packet>> {
        backward::Record::pick(self, lengths, handles)
    }
}
