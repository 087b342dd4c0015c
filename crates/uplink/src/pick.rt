// A pick: document 01, Pick, steps 1 to 5, with refusals 1, 2, Idle, 10 in this order. It has two steps of ours: choose
// and leap, then advance and free.
ghost use Rattle.std.specs.Prelude.{◌≡◌, ◌+◌, ◌^◌, ◌<◌, ◌≤◌, Ok, Some};
ghost use Rattle.cost.specs.Charge.{charge_of, link_ticks};
ghost use Rattle.reply.specs.State.{state, outcome};
ghost use Rattle.tags.specs.Choice.{found};
ghost use Rattle.tags.specs.Chosen.{Tagged};
ghost use Rattle.tags.specs.Ticks.{ticks};
ghost use Rattle.uplink.specs.PickReply.{pick_reply};
ghost use Rattle.uplink.specs.Record.{link_time, rested};
ghost use Rattle.uplink.specs.Pick.{lead_of, serve_rule, pick_rule};
ghost use Rattle.uplink.specs.Ready.{Leaves};

use crate::{Packet, Picked, Record};
use reply::{Called, Refusal};
use tags::{Lead, LinkTicks, ServerTags, ServerTicks};

// A pick is refused from this clock on: 2^62.
pub const CLOCK_LIMIT: u64 = 1 << 62;

// Step 4: both clocks go on by what a packet of `length` bytes takes of the link.
pub fn advance_clocks(header: u16, length: u16, clock: &mut ServerTicks, link: &mut LinkTicks)
    requires { (clock.old.0 < 2 ^ 63) × (link.old.0 < 2 ^ 63) }
    ensures { (clock.new ≡ ticks (clock.old.0 + link_ticks (charge_of header length)))
        × (link.new ≡ link_time (link.old.0 + link_ticks (charge_of header length))) }
{
    let sent = cost::link_ticks(header, length);
    clock.0 += sent;
    link.0 += sent;
}

impl Record {
    // The next packet to send.
    pub fn pick(mut self, lengths: &mut [u16], handles: &mut [u32]) -> Picked
        ensures exact { outcome (pick_reply result.reply) result.next lengths.new handles.new
            ≡ pick_rule (state self lengths.old handles.old) }
    {
        let reply = self.choose(lengths, handles);
        Called { next: self, reply }
    }

    // Steps 1 and 2: the flow that leads sends, where nothing refuses it.
    #[tactic(auto, using(crate::proofs::Picking::picked_unlent))]
    fn choose(
        &mut self,
        lengths: &mut [u16],
        handles: &mut [u32],
    ) -> Result<Option<Packet>, Refusal>
        ensures { outcome (pick_reply result) self.new lengths.new handles.new
            ≡ pick_rule (state self.old lengths.old handles.old) }
    {
        let Some(lengths) = lengths.as_mut_array() else {
            return Err(Refusal::Memory);
        };
        let Some(handles) = handles.as_mut_array() else {
            return Err(Refusal::Memory);
        };
        if !self.is_formed(lengths) {
            return Err(Refusal::Form);
        }
        let Some(lead) = self.lead() else {
            self.rest();
            return Ok(None);
        };
        if CLOCK_LIMIT <= self.clock.0 {
            return Err(Refusal::Clock);
        }
        Ok(Some(self.send(lead.flow, lengths, handles)))
    }

    // Step 2: the flow that leads, and none where nothing waits.
    fn lead(&self) -> Option<Lead>
        requires { (self.now.flows ≤ 64) × Tagged self.now.tags.0 self.now.flows }
        ensures { result ≡ found (lead_of self.now) }
    {
        self.tags
            .choose(self.turn, u32::from(self.flows), &self.queues.waiting)
    }

    // Step 1: nothing waits. Clock, link time, all tags and the turn become 0.
    fn rest(&mut self)
        ensures { self.new ≡ rested self.old }
    {
        self.clock = ServerTicks(0);
        self.link = LinkTicks(0);
        self.tags = ServerTags([0; 64]);
        self.turn = 0;
    }

    // Steps 3 to 5 at this flow: choose and leap, then advance and free.
    fn send(&mut self, flow: u32, lengths: &mut [u16; 4096], handles: &mut [u32; 4096]) -> Packet
        requires { Leaves self.old flow lengths.old }
        ensures { outcome (pick_reply (Ok (Some result))) self.new lengths.new handles.new
            ≡ serve_rule (state self.old lengths.old handles.old) flow }
    {
        let tag = self.tags.tag_at(flow);
        let leap = tags::leap(self.clock, self.width, tag);
        self.clock = leap.clock;
        self.turn = tags::turn_after(flow);
        let first = self.queues.go_on(flow);
        let waiting = self.queues.leave(flow);
        let freed = queues::free(flow, first, lengths, handles);
        advance_clocks(self.header, freed.length, &mut self.clock, &mut self.link);
        if 1 < waiting {
            self.tag_front(flow, freed.behind);
        }
        Packet {
            flow,
            length: freed.length,
            handle: freed.handle,
            tag,
            leapt: leap.leapt,
            clock: self.clock,
        }
    }
}
