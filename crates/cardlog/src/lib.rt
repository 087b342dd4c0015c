// The log of calls (document 02 d): arrival and pick with the entry that each logs, and a block built entry by entry.
// Calls that are refused log nothing, and an opening is not logged.
#![tactic(auto)]

ghost use Rattle.std.specs.Prelude.{◌≡◌, []};
ghost use Rattle.std.specs.Option.{option_to_list};
ghost use Rattle.reply.specs.Reply.{done_reply};
ghost use Rattle.reply.specs.State.{state, outcome};
ghost use Rattle.uplink.specs.PickReply.{pick_reply};
ghost use Rattle.uplink.specs.Calls as calls;
ghost use Rattle.cardlog.specs.Log.{content_of};
ghost use Rattle.cardlog.specs.Feed.{added_rule};
ghost use Rattle.cardlog.specs.Noted.{noting, note_rule};

use card::Block;
use entries::{Entry, Kind};
use reply::Called;
use uplink::{Packet, Record};

// What a call gives, and the entry that it logs: none where it was refused.
#[derive(Drop)]
pub struct Logged<T> {
    pub called: Called<Record, T>,
    pub entry: Option<Entry>,
}

// An arrival: a packet of `length` bytes, known to the caller by `handle`, comes to `flow`.
pub fn arrival(
    held: Record,
    flow: u32,
    length: u32,
    handle: u32,
    lengths: &mut [u16],
    handles: &mut [u32],
) -> Logged<()>
    ensures exact { noting
        (outcome (done_reply result.called.reply) result.called.next lengths.new handles.new)
        (option_to_list result.entry)
        ≡ note_rule (state held lengths.old handles.old) (calls.arrival flow length handle) }
{
    let called = held.arrival(flow, length, handle, lengths, handles);
    let entry = match called.reply {
        Ok(()) => Some(Entry {
            kind: u8::from(Kind::Arrival),
            flow: flow as u8,
            length: length as u16,
            handle,
            clock: called.next.clock.0,
        }),
        Err(_) => None,
    };
    Logged { called, entry }
}

// A pick: the next packet to send. Where nothing waits an Idle is logged, which has zeros in all fields but the kind.
pub fn pick(held: Record, lengths: &mut [u16], handles: &mut [u32]) -> Logged<Option<Packet>>
    ensures exact { noting
        (outcome (pick_reply result.called.reply) result.called.next lengths.new handles.new)
        (option_to_list result.entry)
        ≡ note_rule (state held lengths.old handles.old) calls.pick }
{
    let called = held.pick(lengths, handles);
    let entry = match called.reply {
        Ok(Some(packet)) => Some(Entry {
            kind: u8::from(if packet.leapt { Kind::Leap } else { Kind::Pick }),
            flow: packet.flow as u8,
            length: packet.length,
            handle: packet.handle,
            clock: called.next.clock.0,
        }),
        Ok(None) => Some(Entry {
            kind: u8::from(Kind::Idle),
            ..entries::no_entry()
        }),
        Err(_) => None,
    };
    Logged { called, entry }
}

// A block with no entries yet.
pub fn begun(number: u32) -> Block
    ensures { result ≡ content_of number [] }
{
    Block {
        number,
        count: 0,
        entries: [entries::no_entry(); 31],
    }
}

// The block with an entry behind its last one; a block that is full stays as it is.
#[tactic(auto, unfolding(crate::specs::Feed::added_rule))]
pub fn added(mut block: Block, entry: Entry) -> Block
    ensures { result ≡ added_rule block entry }
{
    if block.count < 31 {
        block.entries[usize::from(block.count)] = entry;
        block.count += 1;
    }
    block
}
