// Where packets wait, how one joins behind and how one leaves in front; refusals 1, 7, 8 and 9.
// The two memories are side by side, as the calls of the C interface lend them: slices of any length before refusal 1,
// arrays of 4,096 places past it.
ghost use Rattle.std.specs.Prelude.{◌≡◌, ◌+◌, ◌-◌, ◌%◌, ◌<◌, ◌≤◌, length, slice_index, slice_set};
ghost use Rattle.reply.specs.Reply.{done_reply};
ghost use Rattle.queues.specs.Queue.{place_of};
ghost use Rattle.queues.specs.Places.{lent, join_reply, freed_of};

use crate::Queues;
use reply::Refusal;

// The place of a flow's k-th waiting packet, from k = 0, in either memory.
fn place(flow: u32, first: u16, k: u16) -> usize
    ensures { result ≡ place_of flow first k }
{
    64 * (flow as usize) + (usize::from(first) + usize::from(k)) % 64
}

// Each lent memory has exactly 4,096 places: 1 where one has not.
pub fn are_lent(lengths: &[u16], handles: &[u32]) -> bool
    ensures { result ≡ lent lengths.now handles.now }
{
    (lengths.len() == 4096) & (handles.len() == 4096)
}

impl Queues {
    // One packet more waits in the flow. Gives the number that waited before.
    pub fn join(&mut self, flow: u32) -> u16
        requires { (flow < 64) × (slice_index self.old.waiting flow < 64) }
        ensures { (result ≡ slice_index self.old.waiting flow)
            × (self.new ≡ record self.old { waiting = slice_set self.old.waiting flow (result + 1) }) }
    {
        let waiting = &mut self.waiting[flow as usize];
        let before = *waiting;
        *waiting = before + 1;
        before
    }

    // One packet fewer waits in the flow. Gives the number that waited before.
    pub fn leave(&mut self, flow: u32) -> u16
        requires { (flow < 64) × (0 < slice_index self.old.waiting flow) }
        ensures { (result ≡ slice_index self.old.waiting flow)
            × (self.new ≡ record self.old { waiting = slice_set self.old.waiting flow (result - 1) }) }
    {
        let waiting = &mut self.waiting[flow as usize];
        let before = *waiting;
        *waiting = before - 1;
        before
    }

    // The flow's first place goes on by one, 63 to 0. Gives the place that was first.
    pub fn go_on(&mut self, flow: u32) -> u16
        requires { (flow < 64) × (slice_index self.old.first flow < 64) }
        ensures { (result ≡ slice_index self.old.first flow)
            × (self.new ≡ record self.old { first = slice_set self.old.first flow ((result + 1) % 64) }) }
    {
        let first = &mut self.first[flow as usize];
        let before = *first;
        *first = (before + 1) % 64;
        before
    }

    // Refusals 7, 8 and 9, for a packet of `bytes` bytes that comes to `flow`, with `flows` flows in the table.
    #[tactic(auto, using(crate::proofs::Placing::joining))]
    pub fn admits(&self, flows: u32, flow: u32, bytes: u32) -> Result<(), Refusal>
        requires { flows ≤ 64 }
        ensures { done_reply result ≡ join_reply flows flow bytes (slice_index self.now.largest flow)
            (slice_index self.now.waiting flow) }
    {
        if flows <= flow {
            return Err(Refusal::NoFlow);
        }
        let f = flow as usize;
        if (bytes < 1) | (u32::from(self.largest[f]) < bytes) {
            return Err(Refusal::Length);
        }
        if 64 <= self.waiting[f] {
            return Err(Refusal::Full);
        }
        Ok(())
    }
}

// A packet goes behind the flow's last one.
pub fn store(
    flow: u32,
    first: u16,
    waiting: u16,
    bytes: u16,
    handle: u32,
    lengths: &mut [u16; 4096],
    handles: &mut [u32; 4096],
)
    requires { flow < 64 }
    ensures { (lengths.new ≡ slice_set lengths.old (place_of flow first waiting) bytes)
        × (handles.new ≡ slice_set handles.old (place_of flow first waiting) handle) }
{
    let at = place(flow, first, waiting);
    lengths[at] = bytes;
    handles[at] = handle;
}

// The packet that left: its length and handle, and the length of the one behind it.
#[derive(Drop)]
pub struct Freed {
    pub length: u16,
    pub handle: u32,
    pub behind: u16,
}

// The front packet leaves: its place becomes 0 in both memories.
pub fn free(flow: u32, first: u16, lengths: &mut [u16; 4096], handles: &mut [u32; 4096]) -> Freed
    requires { flow < 64 }
    ensures { (result ≡ freed_of flow first lengths.old handles.old)
        × (lengths.new ≡ slice_set lengths.old (place_of flow first 0) 0)
        × (handles.new ≡ slice_set handles.old (place_of flow first 0) 0) }
{
    let front = place(flow, first, 0);
    let next = place(flow, first, 1);
    let freed = Freed {
        length: lengths[front],
        handle: handles[front],
        behind: lengths[next],
    };
    lengths[front] = 0;
    handles[front] = 0;
    freed
}
