// The uplink scheduler: which waiting packet a radio link sends next, by Leap Forward Virtual Clock. Sources:
// document 01 and document 02 a) and e); source 000, section 3.
// Three calls, `Record::opening`, `arrival` and `pick`, take any input at all and end with a reply or one of ten
// numbered refusals.
// The waiting packets are in two lent memories of 4,096 places, one of lengths (bytes) and one of handles; flow f
// owns places 64 f to 64 f + 63. They are two parameters wherever they go, as document 01's calls lend them: slices of
// any length, which refusal 1 makes arrays of 4,096.
#![tactic(auto)]

ghost use Rattle.std.specs.Prelude.{◌≡◌};
ghost use Rattle.uplink.specs.Record.{blank};

mod arrival;
mod form;
mod front;
mod opening;
mod pick;

pub use form::CLOCK_END;
pub use pick::{CLOCK_LIMIT, advance_clocks};
use queues::Queues;
use reply::Called;
use tags::{LinkTicks, ServerTags, ServerTicks};

// What the scheduler knows between two calls. The caller carries it, with both memories, unaltered from call to call.
#[derive(Clone, Copy)]
pub struct Record {
    // The number of flows, 1 to 64; flows beyond it are all zeros.
    pub flows: u16,
    // The link header of every packet, in bytes, 0 to 64. A packet is charged its length plus this.
    pub header: u16,
    // The leap width Δ, in server ticks: the largest value, over the flows, of the charge of the largest packet
    // times cost; at most 1,126,080,000.
    pub width: u32,
    // The server clock, below 2^62 + 1,127,206,080.
    pub clock: ServerTicks,
    // The link time, at most the clock.
    pub link: LinkTicks,
    // The tag of each flow.
    pub tags: ServerTags,
    // What each flow has booked, and where its packets wait.
    pub queues: Queues,
    // The turn, 0 to 63: one past the last flow picked, and 0 after an opening or Idle. Of equal tags the first flow
    // from here on is picked, counting round.
    pub turn: u64,
}

// The packet to send.
#[derive(Clone, Copy)]
pub struct Packet {
    pub flow: u32,
    // In bytes.
    pub length: u16,
    pub handle: u32,
    pub tag: ServerTicks,
    // Whether the clock leapt.
    pub leapt: bool,
    // The clock after the pick.
    pub clock: ServerTicks,
}

// What an opening gives: the record that it made, or the blank one, with the reply.
pub type Opened = Called<Record, ()>;

// What an arrival gives: the record after it, with the reply.
pub type Arrived = Called<Record, ()>;

// What a pick gives: the record after it, with the reply: no packet where nothing waits, document 01's Idle.
pub type Picked = Called<Record, Option<Packet>>;

impl Record {
    // All zeros: the record before an opening. It is not well formed.
    pub fn blank() -> Record
        ensures { result ≡ blank }
    {
        Record {
            flows: 0,
            header: 0,
            width: 0,
            clock: ServerTicks(0),
            link: LinkTicks(0),
            tags: ServerTags([0; 64]),
            queues: Queues::blank(),
            turn: 0,
        }
    }
}
