// The lines that a block of the log card (document 02 d) is listed as, for the program `logread`. An entry is the line
// `B E KIND FLOW LENGTH HANDLE CLOCK`: B the block's place in the input from 0, E the entry's from 1. A refused block
// is the line `B refused NUMBER`. Fields are parted by one space, and a line ends at a line feed.
// The buffer is lent, and a place in it goes in and comes out, as in `lines`: nothing here allocates.
// Room: a number has at most 20 digits, so an entry's line has at most 134 bytes and 31 of them have 4,154.
#![tactic(auto)]

ghost use Rattle.std.specs.Prelude.{◌≡◌, ◌+◌, ◌*◌, ◌≤◌, length, take};
ghost use Rattle.lines.specs.Text.{Put};
ghost use Rattle.entries.specs.Legal.{kind_of};
ghost use Rattle.listing.specs.Listing.{head_text, row_text, kind_word, entry_line, refused_line, entries_lines, block_lines, reading_lines};

use card::{Block, Refusal};
use entries::{Entry, Kind};

// The block's place, the fields before a word, and the word with the space before it.
fn put_head(out: &mut [u8], at: usize, place: u64, before: &[u64], word: &[u8]) -> usize
    requires { at + (20 + 21 * length before.now + length word.now) ≤ length out.old }
    ensures { Put out.old at (head_text place before.now word.now)
        out.new result
        × (result ≤ at + (20 + 21 * length before.now + length word.now)) }
{
    let first = lines::put_number(out, at, place);
    let second = lines::put_fields(out, first, before);
    lines::append(out, second, word)
}

// A line: its head, the fields behind the word, and a line feed.
fn put_row(
    out: &mut [u8],
    at: usize,
    place: u64,
    before: &[u64],
    word: &[u8],
    behind: &[u64],
) -> usize
    requires { at + (21 + 21 * length before.now + length word.now + 21 * length behind.now)
        ≤ length out.old }
    ensures { Put out.old at
        (row_text place before.now word.now behind.now) out.new result
        × (result ≤ at + (21 + 21 * length before.now + length word.now
        + 21 * length behind.now)) }
{
    let head = put_head(out, at, place, before, word);
    let end = lines::put_fields(out, head, behind);
    lines::append(out, end, b"\n")
}

// The word of an entry's kind, with the space before it.
fn kind_word(number: u8) -> &'static [u8]
    ensures { (result.now ≡ kind_word (kind_of number)) × (length result.now ≤ 8) }
{
    match Kind::try_from(number) {
        Ok(Kind::Arrival) => b" arrival",
        Ok(Kind::Pick) => b" pick",
        Ok(Kind::Leap) => b" leap",
        Ok(Kind::Idle) => b" idle",
        Err(_) => b" other",
    }
}

// The line of an entry.
fn put_entry(out: &mut [u8], at: usize, place: u64, number: u64, entry: &Entry) -> usize
    requires { at + 134 ≤ length out.old }
    ensures { Put out.old at (entry_line place number entry.now) out.new result × (result ≤ at + 134) }
{
    let word = kind_word(entry.kind);
    let behind = [
        u64::from(entry.flow),
        u64::from(entry.length),
        u64::from(entry.handle),
        entry.clock,
    ];
    put_row(out, at, place, &[number], word, &behind)
}

// The lines of the entries that are used, the first `count` of the 31.
fn put_entries(out: &mut [u8; 4160], place: u64, count: usize, entries: &[Entry; 31]) -> usize
    ensures { Put out.old 0 (entries_lines place 1 (take count entries.now)) out.new result }
{
    let used = &entries[..count.min(31)];
    let mut at = 0;
    for (before, entry) in used.iter().enumerate() {
        at = put_entry(out, at, place, before as u64 + 1, entry);
    }
    at
}

// The line of a refused block.
fn put_refused(out: &mut [u8; 4160], place: u64, number: u32) -> usize
    ensures { Put out.old 0 (refused_line place number) out.new result }
{
    put_row(out, 0, place, &[], b" refused", &[u64::from(number)])
}

// Writes the lines of what was found in the block at this place of the input, its content or the number of any refusal,
// and gives their number of bytes.
#[tactic(auto, unfolding(crate::specs::Listing::block_lines))]
pub fn write_listing(place: u64, reading: Result<Block, u32>, out: &mut [u8; 4160]) -> usize
    ensures { Put out.old 0 (block_lines place reading) out.new result }
{
    match reading {
        Ok(block) => put_entries(out, place, usize::from(block.count), &block.entries),
        Err(number) => put_refused(out, place, number),
    }
}

// The same of what a reader of `card` found.
#[tactic(auto, unfolding(crate::specs::Listing::reading_lines))]
pub fn write_reading(place: u64, reading: Result<Block, Refusal>, out: &mut [u8; 4160]) -> usize
    ensures { Put out.old 0 (reading_lines place reading) out.new result }
{
    write_listing(place, reading.map_err(u32::from), out)
}
