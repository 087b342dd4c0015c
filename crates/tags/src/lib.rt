// The tag's side of an uplink by Leap Forward Virtual Clock: link time and server time, one tag a flow, the leap, the
// tag of a packet that comes to the front, what the form asks of tags, and which flow has the smallest.
// It knows no queue but the number waiting in each. Sources: document 01; source 000 (report WUCS-96-10), section 3,
// for the leap and equation 3; source 003 for one tag a flow.
// Link time and server time are two types, as document 01 wants. The tags of all flows stand in a third, and a tag goes
// in and out of it as server ticks only.
#![tactic(auto)]

mod choice;
mod form;
mod steps;

pub use choice::{Lead, turn_after};
pub use steps::{Leapt, front_tag, leap};

// Above every tag: 2^64 - 1.
pub const NO_TAG: u64 = 18446744073709551615;

// Link ticks: what the radio has sent, at 720 ticks a byte. Source 000's real time.
#[derive(Clone, Copy)]
pub struct LinkTicks(pub u64);

// Server ticks: link ticks and the leaps. Source 000's server clock; tags are counted in it.
#[derive(Clone, Copy)]
pub struct ServerTicks(pub u64);

// The tag of each of 64 flows, in server ticks. Of a flow that waits it is the tag of its front packet; of any other,
// that of its last packet picked, or 0.
#[derive(Clone, Copy)]
pub struct ServerTags(pub [u64; 64]);
