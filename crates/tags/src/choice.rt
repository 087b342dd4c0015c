// Which flow is picked: document 01, Pick, step 2; of equal tags by document 02 e)'s turn.
ghost use Rattle.std.specs.Prelude.{◌≡◌, ◌-◌, ◌≤◌, slice_index};
ghost use Rattle.tags.specs.Choice.{turn_after, search_from, key_of, lead_on, lead_by, lead_as, found};
ghost use Rattle.tags.specs.Chosen.{Tagged, Led};

use crate::{NO_TAG, ServerTags, ServerTicks};

// The flow that leads, and its tag.
#[derive(Clone, Copy)]
pub struct Lead {
    pub flow: u32,
    pub tag: ServerTicks,
}

// The flow that leads among those looked at, and its tag: 64 and what is above every tag for nobody, so that one `<`
// compares. With an option each flow takes a `match` besides (and a sixth more instructions): that is no plainer.
#[derive(Clone, Copy)]
struct Least {
    flow: usize,
    key: u64,
}

// The tag of a flow that waits, and what is above every tag for any other.
fn key_of(tag: u64, waiting: u16) -> u64
    ensures { result ≡ key_of tag waiting }
{
    if waiting == 0 { NO_TAG } else { tag }
}

// Where the search begins: at the turn, or at flow 0 where the turn is past the last flow.
fn search_from(turn: u64, flows: u32) -> usize
    ensures { result ≡ search_from turn flows }
{
    if turn < u64::from(flows) {
        turn as usize
    } else {
        0
    }
}

// Who leads once the flows from `from` up to `to` have been looked at too: one that waits with a smaller tag takes the
// lead, and of equals the first looked at keeps it. An index, since the flow's number is what is kept: a `zip` of both
// parts with its count added to `from` is no plainer.
fn led_on(lead: Least, from: usize, to: usize, tags: &[u64; 64], waiting: &[u16; 64]) -> Least
    requires { (from ≤ to) × (to ≤ 64) × Tagged tags.now to × Led (lead_as lead.flow lead.key) }
    ensures { lead_as result.flow result.key ≡ lead_on (λ f. slice_index tags.now f)
        (λ f. slice_index waiting.now f) (lead_as lead.flow lead.key) from (to - from) }
{
    let mut least = lead;
    for at in from..to {
        let key = key_of(tags[at], waiting[at]);
        if key < least.key {
            least = Least { flow: at, key };
        }
    }
    least
}

impl ServerTags {
    // The waiting flow with the smallest tag, and none where nothing waits; of equal tags the first at or after the
    // turn, counting round. Each flow is looked at once: from the turn on, and then from 0 up to it.
    pub fn choose(&self, turn: u64, flows: u32, waiting: &[u16; 64]) -> Option<Lead>
        requires { (flows ≤ 64) × Tagged self.now.0 flows }
        ensures { result ≡ found (lead_by turn (λ f. slice_index self.now.0 f)
            (λ f. slice_index waiting.now f) flows) }
    {
        let from = search_from(turn, flows);
        let nobody = Least {
            flow: 64,
            key: NO_TAG,
        };
        let later = led_on(nobody, from, flows as usize, &self.0, waiting);
        let least = led_on(later, 0, from, &self.0, waiting);
        if least.flow < 64 {
            Some(Lead {
                flow: least.flow as u32,
                tag: ServerTicks(least.key),
            })
        } else {
            None
        }
    }
}

// The turn after this flow was picked: one past it, 63 to 0.
pub fn turn_after(flow: u32) -> u64
    ensures { result ≡ turn_after flow }
{
    (u64::from(flow) + 1) % 64
}
