// The queue's side of an opening: refusals 1, 3, then flow by flow 4 before 5, then 6; the bookings of the table, its
// leap width, and both memories cleared.
ghost use Rattle.std.specs.Prelude.{◌≡◌, ◌≤◌, length, replicate, slice_index};
ghost use Rattle.below.specs.Below.{most_below};
ghost use Rattle.reply.specs.Reply.{done_reply};
ghost use Rattle.queues.specs.Queue.{booked_ticks};
ghost use Rattle.queues.specs.Opening.{table_reply, lists_reply, field64};
ghost use Rattle.queues.specs.Placed.{Shared, Small};

use crate::{Queues, places};
use reply::Refusal;

// Refusals 4, 5 and 6.
fn table_reply(shares: &[u32], largest: &[u32]) -> Result<(), Refusal>
    requires { (length shares.now ≡ length largest.now) × (length shares.now ≤ 64) }
    ensures { done_reply result ≡ table_reply shares.now largest.now }
{
    let mut sum = 0;
    for (f, (&share, &packet)) in shares.iter().zip(largest).enumerate() {
        if !((1 <= share) & (share <= 1000)) {
            return Err(Refusal::Share(f as u32));
        }
        if !((1 <= packet) & (packet <= 1500)) {
            return Err(Refusal::Largest(f as u32));
        }
        sum += share;
    }
    if 1000 < sum {
        return Err(Refusal::Sum);
    }
    Ok(())
}

// Refusals 1, 3, 4, 5 and 6.
#[tactic(auto, using(crate::proofs::Opens::opening_ways))]
pub fn opening_reply(
    shares: &[u32],
    largest: &[u32],
    header: u32,
    lengths: &[u16],
    handles: &[u32],
) -> Result<(), Refusal>
    ensures { done_reply result
        ≡ lists_reply shares.now largest.now header lengths.now
        handles.now }
{
    if !places::are_lent(lengths, handles) {
        return Err(Refusal::Memory);
    }
    let count = shares.len();
    if !((count == largest.len()) & ((1 <= count) & (count <= 64)) & (header <= 64)) {
        return Err(Refusal::Lists);
    }
    table_reply(shares, largest)
}

// The entries of a list, one for each flow, and 0 for the flows past its end.
pub(crate) fn booked(list: &[u32]) -> [u16; 64]
    requires { Small list.now }
    ensures { result ≡ field64 list.now }
{
    std::array::from_fn(|f| list.get(f).map_or(0, |entry| *entry as u16))
}

impl Queues {
    // The leap width Δ of the first `flows` flows.
    #[tactic(auto, using(crate::proofs::Testing::loop_ways))]
    pub fn widest(&self, flows: u32, header: u16) -> u64
        requires { (flows ≤ 64) × Shared self.now.share flows }
        ensures { result ≡ most_below (λ f. booked_ticks header (slice_index self.now.share f)
            (slice_index self.now.largest f)) flows }
    {
        let flows = flows as usize;
        let mut width: u64 = 0;
        for (share, largest) in self.share[..flows].iter().zip(&self.largest) {
            width = width.max(cost::charge_ticks(header, *largest, cost::cost_at(*share)));
        }
        width
    }
}

// Every place of both memories becomes 0.
pub fn clear(lengths: &mut [u16], handles: &mut [u32])
    ensures { (lengths.new ≡ replicate (length lengths.old) 0)
        × (handles.new ≡ replicate (length handles.old) 0) }
{
    lengths.fill(0);
    handles.fill(0);
}
