// The queue's side of an uplink: what each of 64 flows has booked, and where its packets wait in two lent memories.
// It knows no tag and no clock, so every engine has it as it stands. Source: document 01.
// Units: lengths in bytes, costs in ticks a byte, shares in thousandths of the link.
// A flow's number is a `u32` all through, as callers hand it in: a type for those below 64 would be taken apart at each
// index.
#![tactic(auto)]

ghost use Rattle.std.specs.Prelude.{◌≡◌};
ghost use Rattle.queues.specs.Queues.{blank_queues};
ghost use Rattle.queues.specs.Opening.{new_queues};
ghost use Rattle.queues.specs.Placed.{Small};

mod form;
mod lengths;
mod opening;
mod places;

pub use opening::{clear, opening_reply};
pub use places::{Freed, are_lent, free, store};

// One array for each field: with an array of flows a call takes more instructions (docs/PERFORMANCE.md). A flow's
// packets wait in a ring of its 64 places, from `first` on. All fields are 0 where the flow is not in the table.
#[derive(Clone, Copy)]
pub struct Queues {
    // Thousandths of the link, 1 to 1,000.
    pub share: [u16; 64],
    // The longest packet that the flow may send, in bytes, 1 to 1,500.
    pub largest: [u16; 64],
    // The front packet's place among the flow's 64, 0 to 63.
    pub first: [u16; 64],
    // The number of packets that wait, 0 to 64.
    pub waiting: [u16; 64],
}

impl Queues {
    // All zeros.
    pub fn blank() -> Queues
        ensures { result ≡ blank_queues }
    {
        Queues {
            share: [0; 64],
            largest: [0; 64],
            first: [0; 64],
            waiting: [0; 64],
        }
    }

    // The queues of a table as it opens: nothing waits.
    #[tactic(auto, unfolding(crate::specs::Opening::new_queues))]
    pub fn opened(shares: &[u32], largest: &[u32]) -> Queues
        requires { Small shares.now × Small largest.now }
        ensures { result ≡ new_queues shares.now largest.now }
    {
        Queues {
            share: opening::booked(shares),
            largest: opening::booked(largest),
            first: [0; 64],
            waiting: [0; 64],
        }
    }
}
