// A packet comes to the front of its flow, and the flow gets its tag: source 000, equation 3.
ghost use Rattle.std.specs.Prelude.{◌≡◌};
ghost use Rattle.cost.specs.Charge.{charge_of};
ghost use Rattle.tags.specs.Ticks.{front_tag};
ghost use Rattle.uplink.specs.Flow.{flow_cost};
ghost use Rattle.uplink.specs.Record.{flow_at, tag_of, tagged};
ghost use Rattle.uplink.specs.Ready.{Fronting};

use crate::Record;

impl Record {
    // The flow's tag becomes the larger of tag and clock, plus what the packet of `bytes` is charged.
    pub(crate) fn tag_front(&mut self, flow: u32, bytes: u16)
        requires { Fronting self.old flow }
        ensures { self.new ≡ tagged self.old flow (front_tag (tag_of self.old flow) self.old.clock.0
            (flow_cost (flow_at self.old flow)) (charge_of self.old.header bytes)) }
    {
        let cost = cost::cost_at(self.queues.share[flow as usize]);
        let tag = tags::front_tag(self.tags.tag_at(flow), self.clock, self.header, bytes, cost);
        self.tags.put_tag(flow, tag);
    }
}
