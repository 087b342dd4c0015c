// A pick: document 01, Pick, steps 1 to 5, with refusals 1, 2, Idle, 10 in this order, and step 3 leaping backward. It
// has two steps of ours: choose and leap, then advance and free.
ghost use Rattle.std.specs.Prelude.{◌≡◌, ◌^◌, ◌<◌, ◌≤◌, Ok, Some};
ghost use Rattle.reply.specs.State.{state, outcome};
ghost use Rattle.queues.specs.Ready.{Servable};
ghost use Rattle.tags.specs.Choice.{found};
ghost use Rattle.signs.specs.Bounds.{Near};
ghost use Rattle.signs.specs.Tags.{natural};
ghost use Rattle.uplink.specs.PickReply.{pick_reply};
ghost use Rattle.backward.specs.Record.{lowered, rested, tag_of};
ghost use Rattle.backward.specs.Pick.{lead_of, leapt, leapt_record, served, served_rule, serve_rule, pick_rule};
ghost use Rattle.backward.specs.Ready.{Going, Soon};

use crate::{Picked, Record};
use queues::Freed;
use reply::{Called, Refusal};
use signs::SignedTags;
use tags::{Lead, LinkTicks, ServerTicks};
use uplink::{CLOCK_LIMIT, Packet};

impl Record {
    // The next packet to send.
    pub fn pick(mut self, lengths: &mut [u16], handles: &mut [u32]) -> Picked
        ensures exact { outcome (pick_reply result.reply) result.next lengths.new handles.new
            ≡ pick_rule (state self lengths.old handles.old) }
    {
        let reply = self.choose(lengths, handles);
        Called { next: self, reply }
    }

    // Steps 1 and 2: the flow that leads sends, where nothing refuses it. Refusal 10 is by clock and sum together.
    #[tactic(auto, using(crate::proofs::Picking::picked_unlent))]
    fn choose(
        &mut self,
        lengths: &mut [u16],
        handles: &mut [u32],
    ) -> Result<Option<Packet>, Refusal>
        ensures { outcome (pick_reply result) self.new lengths.new handles.new
            ≡ pick_rule (state self.old lengths.old handles.old) }
    {
        let Some(lengths) = lengths.as_mut_array() else {
            return Err(Refusal::Memory);
        };
        let Some(handles) = handles.as_mut_array() else {
            return Err(Refusal::Memory);
        };
        if !self.is_formed(lengths) {
            return Err(Refusal::Form);
        }
        let Some(lead) = self.lead() else {
            self.rest();
            return Ok(None);
        };
        if CLOCK_LIMIT <= self.clock.0 + self.sum.0 {
            return Err(Refusal::Clock);
        }
        Ok(Some(self.send(lead.flow, lengths, handles)))
    }

    // Step 2: the flow that leads, and none where nothing waits. The tag of a flow that waits is not below zero.
    fn lead(&self) -> Option<Lead>
        requires { (self.now.flows ≤ 64) × Near self.now.tags.0 }
        ensures { result ≡ found (lead_of self.now) }
    {
        self.tags
            .naturals()
            .choose(self.turn, u32::from(self.flows), &self.queues.waiting)
    }

    // Step 1: nothing waits. Sum, clock, link time, all tags and the turn become 0.
    fn rest(&mut self)
        ensures { self.new ≡ rested self.old }
    {
        self.sum = ServerTicks(0);
        self.clock = ServerTicks(0);
        self.link = LinkTicks(0);
        self.tags = SignedTags([0; 64]);
        self.turn = 0;
    }

    // Steps 3 to 5 at this flow: choose and leap, then advance and free. The tag is told as it is after the leap.
    fn send(&mut self, flow: u32, lengths: &mut [u16; 4096], handles: &mut [u32; 4096]) -> Packet
        requires { Servable self.old.queues self.old.header flow lengths.old
            × Soon self.old flow }
        ensures { outcome (pick_reply (Ok (Some result))) self.new lengths.new handles.new
            ≡ serve_rule (state self.old lengths.old handles.old) flow }
    {
        let leapt = self.leap(flow);
        let tag = self.natural_tag(flow);
        let freed = self.serve(flow, lengths, handles);
        Packet {
            flow,
            length: freed.length,
            handle: freed.handle,
            tag,
            leapt,
            clock: self.clock,
        }
    }

    // Steps 2 and 3 at this flow: it is chosen, and where its tag is too far ahead there is a leap.
    fn leap(&mut self, flow: u32) -> bool
        requires { (flow < 64) × Soon self.old flow }
        ensures { (result ≡ leapt self.old flow) × (self.new ≡ leapt_record self.old flow) }
    {
        let leap = tags::leap(self.clock, self.width, self.natural_tag(flow));
        self.turn = tags::turn_after(flow);
        if leap.leapt {
            self.lower();
        }
        leap.leapt
    }

    // The flow's tag, as far as it is above zero.
    fn natural_tag(&self, flow: u32) -> ServerTicks
        requires { flow < 64 }
        ensures { result.0 ≡ natural (tag_of self.now flow) }
    {
        self.tags.tag_at(flow).natural()
    }

    // A leap: the clock stays and every tag goes down by the leap width, which the sum keeps.
    fn lower(&mut self)
        requires { Near self.old.tags.0 × (self.old.sum.0 < 2 ^ 63) }
        ensures { self.new ≡ lowered self.old }
    {
        self.tags.lower(self.width);
        self.sum.0 += u64::from(self.width);
    }

    // Steps 4 and 5: the packet in front leaves, both clocks go on by what it takes of the link, and where the flow
    // still waits the packet behind it gets its tag.
    fn serve(&mut self, flow: u32, lengths: &mut [u16; 4096], handles: &mut [u32; 4096]) -> Freed
        requires { Servable self.old.queues self.old.header flow lengths.old
            × Going self.old flow }
        ensures { served result.length result.handle (state self.new lengths.new handles.new)
            ≡ served_rule (state self.old lengths.old handles.old) flow }
    {
        let first = self.queues.go_on(flow);
        let waiting = self.queues.leave(flow);
        let freed = queues::free(flow, first, lengths, handles);
        uplink::advance_clocks(self.header, freed.length, &mut self.clock, &mut self.link);
        if 1 < waiting {
            self.tag_front(flow, freed.behind);
        }
        freed
    }
}
