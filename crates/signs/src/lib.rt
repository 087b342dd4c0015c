// The tag's side of an uplink by leap backward (document 02 c; source 000, section 4): tags with a sign, the tag of a
// packet that comes to the front, the tags lowered at a leap, and the tags with the sum of the widths leapt added.
// A flow with nothing waiting may have a tag at or under zero: specs/Tags.antt says what it means.
// Units: server ticks.
#![tactic(auto)]

ghost use Rattle.std.specs.Prelude.{◌≡◌, ◌^◌, ◌<◌, pos, get_or, set};
ghost use Rattle.std.specs.Int.Signed.{mag};
ghost use Rattle.below.specs.Listed.{listed};
ghost use Rattle.cost.specs.Charge.{charge_of};
ghost use Rattle.signs.specs.Tags.{natural, lowered, raised, front_tag};
ghost use Rattle.signs.specs.Bounds.{reach, Near};

use std::array;
use tags::{NO_TAG, ServerTags, ServerTicks};

// Server ticks with a sign.
#[derive(Clone, Copy)]
pub struct SignedTicks(pub i64);

// The tag of each of 64 flows, in server ticks, with a sign and 64 bits, as document 01 wants. Of a flow that waits it
// is the tag of its front packet, and at least the clock; of any other, that of its last packet picked less the leaps
// since then, and it may be at or under zero.
#[derive(Clone, Copy)]
pub struct SignedTags(pub [i64; 64]);

impl SignedTicks {
    // A tag as far as it is above zero.
    pub fn natural(self) -> ServerTicks
        ensures { result.0 ≡ natural self.0 }
    {
        ServerTicks(self.0.max(0).cast_unsigned())
    }
}

// A tag with the sum added; 2^64 - 1 where it is below zero even so. -1 less a tag fits for every tag below zero, and
// 0 less it does not.
fn raise(tag: i64, sum: u64) -> u64
    requires { sum < 2 ^ 63 }
    ensures { result ≡ raised sum tag }
{
    if tag < 0 {
        let under = (-1 - tag) as u64;
        if under < sum {
            return sum - 1 - under;
        }
        return NO_TAG;
    }
    tag as u64 + sum
}

impl SignedTags {
    // The tag of one flow.
    pub fn tag_at(&self, flow: u32) -> SignedTicks
        requires { flow < 64 }
        ensures { result.0 ≡ get_or self.now.0 flow (pos 0) }
    {
        SignedTicks(self.0[flow as usize])
    }

    // Another tag for one flow.
    pub fn put_tag(&mut self, flow: u32, tag: SignedTicks)
        requires { flow < 64 }
        ensures { self.new.0 ≡ set self.old.0 flow tag.0 }
    {
        self.0[flow as usize] = tag.0;
    }

    // The tags as far as they are above zero.
    pub fn naturals(&self) -> ServerTags
        ensures { result.0 ≡ listed (λ f. natural (get_or self.now.0 f (pos 0))) 0 64 }
    {
        ServerTags(array::from_fn(|flow| { SignedTicks(self.0[flow]).natural().0 }))
    }

    // The tags with the sum added.
    pub fn raised(&self, sum: ServerTicks) -> ServerTags
        requires { sum.0 < 2 ^ 63 }
        ensures { result.0 ≡ listed (λ f. raised sum.0 (get_or self.now.0 f (pos 0))) 0 64 }
    {
        ServerTags(array::from_fn(|flow| raise(self.0[flow], sum.0)))
    }

    // A leap: every tag goes down by the width.
    pub fn lower(&mut self, width: u32)
        requires { Near self.old.0 }
        ensures { self.new.0 ≡ listed (λ f. lowered width (get_or self.old.0 f (pos 0))) 0 64 }
    {
        for tag in &mut self.0 {
            *tag -= i64::from(width);
        }
    }
}

// The tag of a packet that comes to the front: source 000, equation 3. It is no instance of the first engine's: document
// 01 wants the larger of tag and clock taken with the sign.
pub fn front_tag(
    tag: SignedTicks,
    clock: ServerTicks,
    header: u16,
    length: u16,
    cost: u32,
) -> SignedTicks
    requires { (mag tag.0 < reach) × (clock.0 < reach) }
    ensures { result.0 ≡ front_tag tag.0 clock.0 cost (charge_of header length) }
{
    let start = tag.0.max(clock.0.cast_signed());
    let charge = cost::charge_ticks(header, length, cost);
    SignedTicks(start + charge.cast_signed())
}
