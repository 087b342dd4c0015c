// The entries of a log card (document 02 d): a call as sixteen bytes, and which entries are within the rules.
// Units: lengths in bytes, clocks in server ticks.
#![tactic(auto)]

ghost use Rattle.std.specs.Prelude.{◌≡◌, length};
ghost use Rattle.entries.specs.Entry.{entry_bytes, entry_of, no_entry};
ghost use Rattle.entries.specs.Legal.{Decodes, kind_number, packet_legal, rest_blank, entry_legal, entry_blank};

use fields::{read_number, write_number};

// One call as the card has it.
#[derive(Clone, Copy, PartialEq, Eq)]
pub struct Entry {
    // What call it was, 1 to 4; 0 where the entry is not used. A number and no `Kind`: document 01 wants the decision
    // over numbers, and a block with any other number is refused.
    pub kind: u8,
    // The packet's flow, 0 to 63; 0 at Idle.
    pub flow: u8,
    // The packet's length in bytes, 1 to 1,500; 0 at Idle.
    pub length: u16,
    // The packet's handle; 0 at Idle.
    pub handle: u32,
    // The server clock after the call, in ticks; 0 at Idle.
    pub clock: u64,
}

// What an entry's first byte says.
#[derive(Clone, Copy, PartialEq, Eq)]
pub enum Kind {
    // A packet came to a flow.
    Arrival = 1,
    // A packet was picked, without a leap.
    Pick = 2,
    // A packet was picked, with a leap.
    Leap = 3,
    // Nothing waited.
    Idle = 4,
}

// A number that is no kind's.
#[derive(Clone, Copy, PartialEq, Eq)]
pub struct UnknownKind(pub u8);

// The kind of a number.
impl TryFrom<u8> for Kind {
    type Error = UnknownKind;

    ghost try_from_gives = { Decodes };

    #[tactic(auto, using(std::proofs::lemmas::Bool::Decides::nat_tests), unfolding(crate::specs::Legal::kind_of))]
    fn try_from(number: u8) -> Result<Kind, UnknownKind> {
        match number {
            1 => Ok(Kind::Arrival),
            2 => Ok(Kind::Pick),
            3 => Ok(Kind::Leap),
            4 => Ok(Kind::Idle),
            _ => Err(UnknownKind(number)),
        }
    }
}

// The number of a kind.
impl From<Kind> for u8 {
    ghost from_gives = { λ kind number. number ≡ kind_number kind };

    fn from(kind: Kind) -> u8 {
        kind as u8
    }
}

// An entry that is not used.
pub fn no_entry() -> Entry
    ensures { result ≡ no_entry }
{
    Entry {
        kind: 0,
        flow: 0,
        length: 0,
        handle: 0,
        clock: 0,
    }
}

// Whether flow and length are a packet's; any handle and any clock will do.
#[tactic(auto, using(std::proofs::lemmas::Bool::Decides::nat_tests), unfolding(crate::specs::Legal::packet_legal))]
fn packet_legal(entry: Entry) -> bool
    ensures { result ≡ packet_legal entry }
{
    entry.flow <= 63 && matches!(entry.length, 1..=1500)
}

// Whether there are zeros in all fields but the kind.
fn rest_blank(entry: Entry) -> bool
    ensures { result ≡ rest_blank entry }
{
    entry
        == Entry {
            kind: entry.kind,
            ..no_entry()
        }
}

// Whether an entry that is used is within the rules.
#[tactic(auto, unfolding(crate::specs::Legal::entry_legal, crate::specs::Legal::kind_of))]
pub fn entry_legal(entry: Entry) -> bool
    ensures { result ≡ entry_legal entry }
{
    match Kind::try_from(entry.kind) {
        Ok(Kind::Arrival | Kind::Pick | Kind::Leap) => packet_legal(entry),
        Ok(Kind::Idle) => rest_blank(entry),
        Err(_) => false,
    }
}

// Whether an entry is zeros, as one that is not used has to be.
#[tactic(auto, using(std::proofs::lemmas::Bool::Decides::nat_tests), unfolding(crate::specs::Legal::rest_blank, crate::specs::Legal::entry_blank))]
pub fn entry_blank(entry: Entry) -> bool
    ensures { result ≡ entry_blank entry }
{
    entry == no_entry()
}

// Writes an entry's sixteen bytes. A function and no `From`: they are a part of a block, and no array of their own.
pub fn write_entry(entry: Entry, bytes: &mut [u8])
    requires { length bytes.old ≡ 16 }
    ensures { bytes.new ≡ entry_bytes entry }
{
    bytes[0] = entry.kind;
    bytes[1] = entry.flow;
    write_number(&mut bytes[2..4], u64::from(entry.length));
    write_number(&mut bytes[4..8], u64::from(entry.handle));
    write_number(&mut bytes[8..16], entry.clock);
}

// The entry that sixteen bytes are.
pub fn read_entry(bytes: &[u8]) -> Entry
    requires { length bytes.now ≡ 16 }
    ensures { result ≡ entry_of bytes.now }
{
    let length = read_number(&bytes[2..4]) as u16;
    let handle = read_number(&bytes[4..8]) as u32;
    let clock = read_number(&bytes[8..16]);
    Entry {
        kind: bytes[0],
        flow: bytes[1],
        length,
        handle,
        clock,
    }
}
