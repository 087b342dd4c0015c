// The steps on tags that arrivals and picks are made of: document 01, "The three calls". Each is one definition of
// specs/Ticks.antt.
ghost use Rattle.std.specs.Prelude.{◌≡◌, ◌^◌, ◌<◌, slice_index, slice_set};
ghost use Rattle.cost.specs.Charge.{charge_of};
ghost use Rattle.tags.specs.Ticks.{ticks, leap_rule, front_tag};

use crate::{ServerTags, ServerTicks};

impl ServerTags {
    // The tag of one flow.
    pub fn tag_at(&self, flow: u32) -> ServerTicks
        requires { flow < 64 }
        ensures { result.0 ≡ slice_index self.now.0 flow }
    {
        ServerTicks(self.0[flow as usize])
    }

    // Another tag for one flow.
    pub fn put_tag(&mut self, flow: u32, tag: ServerTicks)
        requires { flow < 64 }
        ensures { self.new.0 ≡ slice_set self.old.0 flow tag.0 }
    {
        self.0[flow as usize] = tag.0;
    }
}

// A leap taken or not, and the clock after it, which is the clock both ways.
#[derive(Clone, Copy)]
pub struct Leapt {
    pub leapt: bool,
    pub clock: ServerTicks,
}

// Step 3 of a pick: a tag of more than clock + 2Δ moves the clock on by Δ, once. Said as a distance, it never
// overflows.
#[tactic(auto, unfolding(crate::specs::Ticks::leap_rule))]
pub fn leap(clock: ServerTicks, width: u32, tag: ServerTicks) -> Leapt
    ensures { result ≡ leap_rule clock width tag }
{
    let step = u64::from(width);
    if 2 * step < tag.0.saturating_sub(clock.0) {
        return Leapt {
            leapt: true,
            clock: ServerTicks(clock.0 + step),
        };
    }
    Leapt {
        leapt: false,
        clock,
    }
}

// The tag of a packet that comes to the front: source 000, equation 3.
pub fn front_tag(
    tag: ServerTicks,
    clock: ServerTicks,
    header: u16,
    length: u16,
    cost: u32,
) -> ServerTicks
    requires { (tag.0 < 2 ^ 63) × (clock.0 < 2 ^ 63) }
    ensures { result ≡ ticks (front_tag tag.0 clock.0 cost (charge_of header length)) }
{
    ServerTicks(tag.0.max(clock.0) + cost::charge_ticks(header, length, cost))
}
