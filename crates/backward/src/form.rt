// The form test of refusal 2, which every arrival and pick makes past refusal 1: with the sum added to clock and tags
// the record is judged by document 01's form. Any record may be handed in, and nothing overflows: the sum is bounded
// before it is added to anything.
ghost use Rattle.std.specs.Prelude.{◌≡◌, ◌+◌, ◌^◌, ◌<◌};
ghost use Rattle.backward.specs.Raised.{raised_record};
ghost use Rattle.backward.specs.Form.{formed};

use crate::Record;
use tags::ServerTicks;
use uplink::CLOCK_END;

impl Record {
    // The first engine's record: this one with the sum added to clock and tags. No `From`: it asks that both fit.
    fn raised(&self) -> uplink::Record
        requires { self.now.clock.0 + self.now.sum.0 < 2 ^ 63 }
        ensures { result ≡ raised_record self.now }
    {
        uplink::Record {
            flows: self.flows,
            header: self.header,
            width: self.width,
            clock: ServerTicks(self.clock.0 + self.sum.0),
            link: self.link,
            tags: self.tags.raised(self.sum),
            queues: self.queues,
            turn: self.turn,
        }
    }

    // The record is well formed, with this memory of lengths: clock and sum together are below the clock's end too.
    #[tactic(auto, using(crate::proofs::Checking::checking))]
    pub(crate) fn is_formed(&self, lengths: &[u16; 4096]) -> bool
        ensures { result ≡ formed self.now lengths.now }
    {
        self.sum.0 < CLOCK_END
            && self.clock.0 < CLOCK_END - self.sum.0
            && self.raised().is_formed(lengths)
    }
}
