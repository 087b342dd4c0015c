// Every waiting length is from 1 to the flow's largest. No step overflows on any record, and no loop leaves early:
// each adds up what is wrong, so that several lengths are looked at in one step of the machine.
ghost use Rattle.std.specs.Prelude.{◌≡◌, ◌+◌, ◌-◌, ◌*◌, ◌<◌, ◌≤◌, length, slice_index};
ghost use Rattle.below.specs.Below.{all_below};
ghost use Rattle.cost.specs.Cost.{within};
ghost use Rattle.queues.specs.Queues.{queue_at};
ghost use Rattle.queues.specs.Form.{lengths_formed, queue_formed};
ghost use Rattle.queues.specs.Placed.{Kept};
ghost use Rattle.queues.specs.Fence.{fenced, fencing};

use crate::Queues;

// What lets through the lengths past the last that waits: eight places that are looked at, then eight that are not.
static FENCE: [u16; 16] = [
    0, 0, 0, 0, 0, 0, 0, 0, 65535, 65535, 65535, 65535, 65535, 65535, 65535, 65535,
];

// Every length of a stretch of the memory is from 1 to `largest`.
#[tactic(auto, using(crate::proofs::Forming::stretch_ways))]
fn stretch_ok(stretch: &[u16], largest: u16) -> bool
    requires { 0 < largest }
    ensures { result ≡ all_below (λ k. within 1 largest (slice_index stretch.now k))
        (length stretch.now) }
{
    let most = largest - 1;
    let mut wrong = 0;
    for length in stretch {
        wrong |= length.wrapping_sub(1).saturating_sub(most);
    }
    wrong == 0
}

// The same of eight lengths, but for those that the fence lets through.
#[tactic(auto, using(crate::proofs::Forming::all_none))]
fn eight_ok(window: &[u16], fence: &[u16], largest: u16) -> bool
    requires largest_nonzero { 0 < largest }
    requires window_len { (length window.now ≡ 8) × (length fence.now ≡ 8) }
    ensures { result ≡ all_below (λ k. fenced largest (slice_index fence.now k) (slice_index window.now k))
        8 }
{
    let most = largest - 1;
    let mut wrong = 0;
    for (length, fence) in window.iter().zip(fence) {
        wrong |= length.wrapping_sub(1).saturating_sub(most | fence);
    }
    wrong == 0
}

// A queue of at most eight that does not pass the flow's last place: eight lengths at once. Here and in `long_ok` a
// flow's figures are parameters, since `queue_ok` has read each from its array once.
fn short_ok(flow: u32, largest: u16, first: u16, waiting: u16, lengths: &[u16; 4096]) -> bool
    requires flow_bound { flow < 64 }
    requires first_bound { (first ≤ 56) × (waiting ≤ 8) × (0 < largest) }
    ensures { result ≡ lengths_formed flow lengths.now largest first waiting }
{
    let start = 64 * flow as usize + usize::from(first);
    let left = 8 - usize::from(waiting);
    eight_ok(&lengths[start..start + 8], &FENCE[left..left + 8], largest)
}

// Any queue: all of the flow's places, or one stretch of them, or two.
#[tactic(auto, using(crate::proofs::Forming::ring_ways))]
fn long_ok(flow: u32, largest: u16, first: u16, waiting: u16, lengths: &[u16; 4096]) -> bool
    requires flow_bound { flow < 64 }
    requires first_bound { (first < 64) × (waiting ≤ 64) × (0 < largest) }
    ensures { result ≡ lengths_formed flow lengths.now largest first waiting }
{
    let from = 64 * flow as usize;
    let turn = from + 64;
    if 64 <= waiting {
        return stretch_ok(&lengths[from..turn], largest);
    }
    let start = from + usize::from(first);
    let end = start + usize::from(waiting);
    if end <= turn {
        return stretch_ok(&lengths[start..end], largest);
    }
    let rest = end - 64;
    stretch_ok(&lengths[start..turn], largest) & stretch_ok(&lengths[from..rest], largest)
}

impl Queues {
    // Every waiting length of a flow.
    pub(crate) fn queue_ok(&self, flow: u32, lengths: &[u16; 4096]) -> bool
        requires flow_bound { flow < 64 }
        requires kept { Kept (queue_at self.now flow) }
        ensures { result ≡ queue_formed flow lengths.now (queue_at self.now flow) }
    {
        let f = flow as usize;
        let largest = self.largest[f];
        let first = self.first[f];
        let waiting = self.waiting[f];
        if waiting <= 8 && first <= 56 {
            short_ok(flow, largest, first, waiting, lengths)
        } else {
            long_ok(flow, largest, first, waiting, lengths)
        }
    }
}
