// The answers of the calls, and document 01's number for each refusal. Every engine answers with these.
#![tactic(auto)]

ghost use Rattle.std.specs.Prelude.{◌≡◌};
ghost use Rattle.reply.specs.Reply.{refusal, reply_number, reply_flow};

// Why a call was refused. Document 01's numbers, in its order from 1 to 10, are given by `refusal` of specs/Reply.antt.
#[derive(Clone, Copy)]
pub enum Refusal {
    // A lent memory has not exactly 4,096 places.
    Memory,
    // The record is not well formed.
    Form,
    // The two lists differ in length, or have 0 or over 64 entries, or the header is over 64.
    Lists,
    // The share of this flow is outside 1 to 1,000.
    Share(u32),
    // The largest packet of this flow is outside 1 to 1,500.
    Largest(u32),
    // The shares sum to more than 1,000.
    Sum,
    // The flow number is not below the number of flows.
    NoFlow,
    // The length is 0 or over the flow's largest.
    Length,
    // 64 packets already wait in that flow.
    Full,
    // Something waits and the clock is 2^62 or more.
    Clock,
}

// What a call gives back: the next record, each engine its own, and the reply.
#[derive(Drop)]
pub struct Called<R, T> {
    pub next: R,
    pub reply: Result<T, Refusal>,
}

impl Refusal {
    // Document 01's number. A method like `flow` and no `From`: a refusal has two numbers.
    pub fn number(self) -> u32
        ensures { result ≡ reply_number (refusal self) }
    {
        match self {
            Refusal::Memory => 1,
            Refusal::Form => 2,
            Refusal::Lists => 3,
            Refusal::Share(_) => 4,
            Refusal::Largest(_) => 5,
            Refusal::Sum => 6,
            Refusal::NoFlow => 7,
            Refusal::Length => 8,
            Refusal::Full => 9,
            Refusal::Clock => 10,
        }
    }

    // The flow that numbers 4 and 5 come with; 0 with every other.
    pub fn flow(self) -> u32
        ensures { result ≡ reply_flow (refusal self) }
    {
        match self {
            Refusal::Share(flow) | Refusal::Largest(flow) => flow,
            _ => 0,
        }
    }
}
