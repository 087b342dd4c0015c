// A reply written as a line: its call's letter, then its fields, parted by one space, and a line feed.
ghost use Rattle.std.specs.Prelude.{◌+◌, ◌*◌, ◌≤◌, length};
ghost use Rattle.reply.specs.Reply.{done_reply};
ghost use Rattle.uplink.specs.PickReply.{pick_reply};
ghost use Rattle.lines.specs.Text.{Put};
ghost use Rattle.lines.specs.Number.{decimal};
ghost use Rattle.lines.specs.Output.{field_texts, line_text};
ghost use Rattle.lines.specs.Output.{bad_line, opening_line, arrival_line, pick_line};
ghost use Rattle.lines.specs.Output.{Written};

use crate::text::append;
use itoa::Buffer;
use reply::Refusal;
use uplink::Packet;

// A number in decimal digits.
pub fn put_number(out: &mut [u8], at: usize, number: u64) -> usize
    requires { at + 20 ≤ length out.old }
    ensures { Put out.old at (decimal number) out.new result × (result ≤ at + 20) }
{
    let mut digits = Buffer::new();
    append(out, at, digits.format(number).as_bytes())
}

// Fields, each a space and a number.
#[tactic(auto, using(crate::proofs::Spacing::fielded_none, crate::proofs::Spacing::fielded_kept, crate::proofs::Spacing::fielded_room, crate::proofs::Spacing::fielded_behind, crate::proofs::Spacing::fielded_more, crate::proofs::Spacing::fielded_all, crate::proofs::Spacing::fielded_few))]
pub fn put_fields(out: &mut [u8], at: usize, fields: &[u64]) -> usize
    requires { at + 21 * length fields.now ≤ length out.old }
    ensures { Put out.old at (field_texts fields.now) out.new result
        × (result ≤ at + 21 * length fields.now) }
{
    let mut end = at;
    for &field in fields {
        out[end] = b' ';
        end = put_number(out, end + 1, field);
    }
    end
}

// A letter, its fields and a line feed.
#[tactic(auto, using(crate::proofs::Spacing::lined_room, crate::proofs::Spacing::lined_kept, crate::proofs::Spacing::lined_end, crate::proofs::Spacing::lined_all))]
fn put_line(out: &mut [u8], letter: u8, fields: &[u64]) -> usize
    requires { (2 + 21 * length fields.now ≤ length out.old) × (length fields.now ≤ 7) }
    ensures { Written out.new result (line_text letter fields.now) }
{
    out[0] = letter;
    let at = put_fields(out, 1, fields);
    out[at] = b'\n';
    at + 1
}

// Document 01: any other line writes `bad`.
pub fn write_bad(out: &mut [u8; 160]) -> usize
    ensures { Written out.new result bad_line }
{
    append(out, 0, b"bad\n")
}

// `o`, number (0 for done) and flow.
pub fn write_opening(out: &mut [u8; 160], reply: Result<(), Refusal>) -> usize
    ensures { Written out.new result (opening_line (done_reply reply)) }
{
    let fields = match reply {
        Ok(()) => [0, 0],
        Err(why) => [u64::from(why.number()), u64::from(why.flow())],
    };
    put_line(out, b'o', &fields)
}

// `a` and the number (0 for done).
pub fn write_arrival(out: &mut [u8; 160], reply: Result<(), Refusal>) -> usize
    ensures { Written out.new result (arrival_line (done_reply reply)) }
{
    let number = match reply {
        Ok(()) => 0,
        Err(why) => u64::from(why.number()),
    };
    put_line(out, b'a', &[number])
}

// `p idle`, or `p` and a refusal number, or `p 0`, flow, length, handle, tag, leapt (0 or 1), clock.
pub fn write_pick(out: &mut [u8; 160], reply: Result<Option<Packet>, Refusal>) -> usize
    ensures { Written out.new result (pick_line (pick_reply reply)) }
{
    match reply {
        Ok(None) => append(out, 0, b"p idle\n"),
        Ok(Some(packet)) => {
            let fields = [
                0,
                u64::from(packet.flow),
                u64::from(packet.length),
                u64::from(packet.handle),
                packet.tag.0,
                u64::from(packet.leapt),
                packet.clock.0,
            ];
            put_line(out, b'p', &fields)
        }
        Err(why) => put_line(out, b'p', &[u64::from(why.number())]),
    }
}
