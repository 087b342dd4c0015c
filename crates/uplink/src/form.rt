// The form test of refusal 2, which every arrival and pick makes past refusal 1. Any record may be handed in with any
// lengths, and nothing overflows.
ghost use Rattle.std.specs.Prelude.{◌≡◌};
ghost use Rattle.uplink.specs.Form.{formed};

use crate::Record;

// The clock is below this: document 02 a)'s 2^62 + 1,127,206,080.
pub const CLOCK_END: u64 = (1 << 62) + 1_127_206_080;

impl Record {
    // The record is well formed, with this memory of lengths.
    #[tactic(auto, using(crate::proofs::Testing::testing))]
    pub fn is_formed(&self, lengths: &[u16; 4096]) -> bool
        ensures { result ≡ formed self.now lengths.now }
    {
        let flows = u32::from(self.flows);
        self.turn < 64
            && self.link.0 <= self.clock.0
            && self.clock.0 < CLOCK_END
            && self
                .queues
                .are_formed(flows, self.header, self.width, lengths)
            && self
                .tags
                .are_formed(flows, self.width, self.clock, &self.queues.waiting)
    }
}
