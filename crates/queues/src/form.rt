// What document 01's form asks of the queue's side: bookings and queues of the flows that count, and zeros past them.
ghost use Rattle.std.specs.Prelude.{◌≡◌, ◌<◌, ◌≤◌, length, slice_index, sum};
ghost use Rattle.below.specs.Below.{all_below, sum_below};
ghost use Rattle.queues.specs.Queues.{queue_at};
ghost use Rattle.queues.specs.Form.{ranged, queue_formed, queues_spare, queue_side};
ghost use Rattle.queues.specs.Placed.{Placed};

use crate::Queues;

// The sum of the shares of some flows.
fn total(shares: &[u16]) -> u32
    requires { length shares.now ≤ 64 }
    ensures { result ≡ sum shares.now }
{
    shares.iter().map(|share| u32::from(*share)).sum()
}

impl Queues {
    // Share and largest packet, first place and number waiting of each flow in their ranges.
    #[tactic(auto, using(crate::proofs::Testing::loop_ways))]
    fn ranges_ok(&self, flows: u32) -> bool
        requires { flows ≤ 64 }
        ensures { result ≡ all_below (λ f. ranged (queue_at self.now f)) flows }
    {
        // An index: four arrays are looked at side by side, and a `zip` of four is no plainer.
        let mut wrong: u16 = 0;
        for at in 0..flows as usize {
            let share = self.share[at].wrapping_sub(1).saturating_sub(999);
            let largest = self.largest[at].wrapping_sub(1).saturating_sub(1499);
            let first = self.first[at].saturating_sub(63);
            let waiting = self.waiting[at].saturating_sub(64);
            wrong |= (share | largest) | (first | waiting);
        }
        wrong == 0
    }

    // Every waiting length of every flow.
    #[tactic(auto, using(crate::proofs::Testing::loop_ways))]
    fn lengths_ok(&self, flows: u32, lengths: &[u16; 4096]) -> bool
        requires flows_bound { flows ≤ 64 }
        requires placed { Placed self.now flows }
        ensures { result ≡ all_below (λ f. queue_formed f lengths.now (queue_at self.now f)) flows }
    {
        (0..flows).all(|f| self.queue_ok(f, lengths))
    }

    // All fields of the flows beyond the number of flows are 0.
    #[tactic(auto, using(crate::proofs::Testing::loop_ways), unfolding(crate::specs::Form::queues_spare))]
    fn rest_ok(&self, flows: u32) -> bool
        requires { flows ≤ 64 }
        ensures { result ≡ queues_spare flows self.now }
    {
        // An index, as in `ranges_ok`.
        let mut any: u16 = 0;
        for at in flows as usize..64 {
            any |= (self.share[at] | self.largest[at]) | (self.first[at] | self.waiting[at]);
        }
        any == 0
    }

    // The queue's side of a record is well formed, with this memory of lengths. Any numbers may be handed in.
    #[tactic(auto, using(crate::proofs::Testing::side_ways))]
    pub fn are_formed(&self, flows: u32, header: u16, width: u32, lengths: &[u16; 4096]) -> bool
        ensures { result ≡ queue_side flows header width self.now lengths.now }
    {
        (1 <= flows) & (flows <= 64) & (header <= 64)
            && self.ranges_ok(flows)
            && self.lengths_ok(flows, lengths)
            && (total(&self.share[..flows as usize]) <= 1000)
                & (self.widest(flows, header) == u64::from(width))
                & self.rest_ok(flows)
    }
}
