// The plain engine: the same scheduler by leap backward (document 02 c; source 000, section 4), to be laid beside the
// first one, crate `uplink`. At a leap the clock stays and all 64 tags go down by the leap width, so the clock goes
// with link time and a flow with nothing waiting may have a tag below zero. The sum of the widths leapt is kept: with
// it added to clock and tags the record is the first engine's (crate `equal`).
// Bookings, queues and memories are the crate `queues`, signed tags the crate `signs`. The three calls take any input
// at all and end with a reply or one of document 01's ten numbered refusals. Their text is this engine's own, and not
// one of a trait's: document 02 c) wants this engine beside the fast one, and a trait over both records takes, for the
// ninety lines in common, signatures and contracts among them, its declaration, two impls of every step and the rules
// of both as ghost members.
#![tactic(auto)]

ghost use Rattle.std.specs.Prelude.{◌≡◌};
ghost use Rattle.backward.specs.Record.{blank};

mod arrival;
mod form;
mod front;
mod opening;
mod pick;

// What the plain engine knows between two calls. The caller carries it, with both memories, unaltered.
#[derive(Clone, Copy)]
pub struct Record {
    // The number of flows, 1 to 64; flows beyond it are all zeros, their tags with the sum added.
    pub flows: u16,
    // The link header of every packet, in bytes, 0 to 64.
    pub header: u16,
    // The leap width Δ, in server ticks, at most 1,126,080,000.
    pub width: u32,
    // The sum of the widths leapt since the opening or the last Idle, in server ticks.
    pub sum: tags::ServerTicks,
    // The server clock, which never leaps. With the sum added it is below 2^62 + 1,127,206,080.
    pub clock: tags::ServerTicks,
    // The link time: on a carried record the clock's own figure.
    pub link: tags::LinkTicks,
    // The tag of each flow.
    pub tags: signs::SignedTags,
    // What each flow has booked, and where its packets wait.
    pub queues: queues::Queues,
    // The turn, 0 to 63: one past the last flow picked, and 0 after an opening or Idle.
    pub turn: u64,
}

// What an opening gives: the record that it made, or the blank one, with the reply.
pub type Opened = reply::Called<Record, ()>;

// What an arrival gives: the record after it, with the reply.
pub type Arrived = reply::Called<Record, ()>;

// What a pick gives: the record after it, with the reply: tag and clock are this engine's own, the tag after the
// lowering.
pub type Picked = reply::Called<Record, Option<uplink::Packet>>;

impl Record {
    // All zeros: the record before an opening. It is not well formed.
    pub fn blank() -> Record
        ensures { result ≡ blank }
    {
        opening::unleapt(uplink::Record::blank())
    }
}
