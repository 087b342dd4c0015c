// An arrival: document 01, "The three calls", with refusals 1, 2, 7, 8, 9 in this order.
ghost use Rattle.std.specs.Prelude.{◌≡◌, []};
ghost use Rattle.reply.specs.Reply.{done, done_reply};
ghost use Rattle.reply.specs.State.{state, outcome};
ghost use Rattle.backward.specs.Arrival.{admit_reply, store_rule, arrival_rule};
ghost use Rattle.backward.specs.Ready.{Stored};

use crate::{Arrived, Record};
use reply::{Called, Refusal};

impl Record {
    // A packet of `length` bytes, known to the caller by `handle`, comes to `flow`.
    pub fn arrival(
        mut self,
        flow: u32,
        length: u32,
        handle: u32,
        lengths: &mut [u16],
        handles: &mut [u32],
    ) -> Arrived
        ensures exact { outcome (done_reply result.reply) result.next
            lengths.new handles.new
            ≡ arrival_rule (state self lengths.old handles.old) flow length handle }
    {
        let reply = self.take(flow, length, handle, lengths, handles);
        Called { next: self, reply }
    }

    // The packet is stored where nothing refuses it, refusal 1 first.
    #[tactic(auto, using(crate::proofs::Arriving::arrived_unlent))]
    fn take(
        &mut self,
        flow: u32,
        length: u32,
        handle: u32,
        lengths: &mut [u16],
        handles: &mut [u32],
    ) -> Result<(), Refusal>
        ensures { outcome (done_reply result) self.new lengths.new handles.new
            ≡ arrival_rule (state self.old lengths.old handles.old) flow length handle }
    {
        let Some(lengths) = lengths.as_mut_array() else {
            return Err(Refusal::Memory);
        };
        let Some(handles) = handles.as_mut_array() else {
            return Err(Refusal::Memory);
        };
        self.admits(flow, length, lengths)?;
        self.store(flow, length as u16, handle, lengths, handles);
        Ok(())
    }

    // Refusals 2, 7, 8 and 9.
    #[tactic(auto, using(crate::proofs::Arriving::admitting))]
    fn admits(&self, flow: u32, length: u32, lengths: &[u16; 4096]) -> Result<(), Refusal>
        ensures { done_reply result ≡ admit_reply self.now lengths.now flow length }
    {
        if !self.is_formed(lengths) {
            return Err(Refusal::Form);
        }
        self.queues.admits(u32::from(self.flows), flow, length)
    }

    // The packet goes behind the flow's last one. Where it is the flow's only one, the flow is tagged for it.
    fn store(
        &mut self,
        flow: u32,
        bytes: u16,
        handle: u32,
        lengths: &mut [u16; 4096],
        handles: &mut [u32; 4096],
    )
        requires { Stored self.old flow bytes }
        ensures { outcome (done []) self.new lengths.new handles.new
            ≡ store_rule (state self.old lengths.old handles.old) flow bytes handle }
    {
        let first = self.queues.first[flow as usize];
        let waiting = self.queues.join(flow);
        queues::store(flow, first, waiting, bytes, handle, lengths, handles);
        if waiting == 0 {
            self.tag_front(flow, bytes);
        }
    }
}
