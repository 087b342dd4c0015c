// What document 01's form asks of the tags. No step overflows on any record.
ghost use Rattle.std.specs.Prelude.{◌≡◌, ◌^◌, ◌<◌, ◌≤◌, ◌&&◌, slice_index};
ghost use Rattle.tags.specs.Form.{tag_formed, tags_formed, tags_spare};

use crate::{ServerTags, ServerTicks};

// A waiting flow's tag is from the clock to clock + 3Δ, any other's at most clock + 2Δ. A tag behind the clock goes
// round to a distance that no leap width reaches.
#[tactic(auto, using(crate::proofs::Forming::distance), unfolding(crate::specs::Form::tag_formed))]
fn tag_ok(tag: u64, waiting: u16, clock: u64, width: u32) -> bool
    requires { clock < 2 ^ 63 }
    ensures { result ≡ tag_formed clock width tag waiting }
{
    if waiting == 0 {
        tag <= clock + 2 * u64::from(width)
    } else {
        tag.wrapping_sub(clock) <= 3 * u64::from(width)
    }
}

impl ServerTags {
    // The tags of the flows that count.
    fn are_ok(&self, flows: u32, width: u32, clock: u64, waiting: &[u16; 64]) -> bool
        requires { (flows ≤ 64) × (clock < 2 ^ 63) }
        ensures { result ≡ tags_formed flows width clock (λ f. slice_index self.now.0 f)
            (λ f. slice_index waiting.now f) }
    {
        let end = flows as usize;
        self.0[..end]
            .iter()
            .zip(&waiting[..end])
            .all(|(tag, waiting)| tag_ok(*tag, *waiting, clock, width))
    }

    // The tags past them are 0. Those are looked at to the end: with two flows a test that stops at the first takes
    // twice the instructions.
    fn rest_ok(&self, flows: u32) -> bool
        requires { flows ≤ 64 }
        ensures { result ≡ tags_spare flows (λ f. slice_index self.now.0 f) }
    {
        let mut any: u64 = 0;
        for tag in &self.0[flows as usize..] {
            any |= *tag;
        }
        any == 0
    }

    // The tag's side of a record is well formed.
    pub fn are_formed(
        &self,
        flows: u32,
        width: u32,
        clock: ServerTicks,
        waiting: &[u16; 64],
    ) -> bool
        requires { (flows ≤ 64) × (clock.0 < 2 ^ 63) }
        ensures { result ≡ (tags_formed flows width clock.0 (λ f. slice_index self.now.0 f)
            (λ f. slice_index waiting.now f)
            && tags_spare flows (λ f. slice_index self.now.0 f)) }
    {
        self.are_ok(flows, width, clock.0, waiting) & self.rest_ok(flows)
    }
}
