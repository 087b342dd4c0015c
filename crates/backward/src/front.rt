// A packet comes to the front of its flow, and the flow gets its tag: source 000, equation 3.
ghost use Rattle.std.specs.Prelude.{◌≡◌};
ghost use Rattle.cost.specs.Charge.{charge_of};
ghost use Rattle.queues.specs.Queue.{cost_to};
ghost use Rattle.signs.specs.Tags.{front_tag};
ghost use Rattle.backward.specs.Record.{tag_of, queue_of, tagged};
ghost use Rattle.backward.specs.Ready.{Fronting};

use crate::Record;

impl Record {
    // The flow's tag becomes the larger of tag and clock, plus what the packet of `bytes` is charged.
    pub(crate) fn tag_front(&mut self, flow: u32, bytes: u16)
        requires { Fronting self.old flow }
        ensures { self.new ≡ tagged self.old flow (front_tag (tag_of self.old flow) self.old.clock.0
            (cost_to (queue_of self.old flow)) (charge_of self.old.header bytes)) }
    {
        let cost = cost::cost_at(self.queues.share[flow as usize]);
        let tag = signs::front_tag(self.tags.tag_at(flow), self.clock, self.header, bytes, cost);
        self.tags.put_tag(flow, tag);
    }
}
