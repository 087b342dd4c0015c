// A line read: which call it is, or that it is none.
ghost use Rattle.std.specs.Prelude.{◌≡◌, ◌∷◌};
ghost use Rattle.lines.specs.Text.{space, parts_of};
ghost use Rattle.lines.specs.Number.{number_of};
ghost use Rattle.lines.specs.Line.{letter_f, letter_a, pair_of, line_of};

use crate::Line;
use crate::text::cut;

// 1 to 10 decimal digits, at most 4,294,967,295. By hand, since the library's `parse` takes a sign and more digits.
fn number(field: &[u8]) -> Option<u32>
    ensures { result ≡ number_of field.now }
{
    if !(1..=10).contains(&field.len()) {
        return None;
    }
    let mut value: u64 = 0;
    for &byte in field {
        if !byte.is_ascii_digit() {
            return None;
        }
        value = value * 10 + u64::from(byte - b'0');
    }
    u32::try_from(value).ok()
}

// Two numbers parted by one space.
#[tactic(auto, using(crate::proofs::Parting::second_none, crate::proofs::Parting::both_read))]
fn pair(text: &[u8]) -> Option<(u32, u32)>
    ensures { result ≡ pair_of (parts_of space text.now) }
{
    let (first, rest) = cut(text)?;
    Some((number(first)?, number(rest)?))
}

// The line of the letter f, a space and this text.
#[tactic(auto, using(crate::proofs::Parting::row_none, crate::proofs::Parting::row_read))]
fn row(text: &[u8]) -> Option<Line>
    ensures { result ≡ line_of (letter_f ∷ space ∷ text.now) }
{
    let (share, largest) = pair(text)?;
    Some(Line::Row { share, largest })
}

// The line of the letter a, a space and this text.
#[tactic(auto, using(crate::proofs::Parting::arrival_one, crate::proofs::Parting::flow_none, crate::proofs::Parting::packet_none, crate::proofs::Parting::arrival_read))]
fn arrival(text: &[u8]) -> Option<Line>
    ensures { result ≡ line_of (letter_a ∷ space ∷ text.now) }
{
    let (first, rest) = cut(text)?;
    let flow = number(first)?;
    let (length, handle) = pair(rest)?;
    Some(Line::Arrival {
        flow,
        length,
        handle,
    })
}

// What a line says, if it is not bad.
#[tactic(auto, using(crate::proofs::Letters::line_empty, crate::proofs::Letters::line_opening, crate::proofs::Letters::line_pick, crate::proofs::Letters::line_alone, crate::proofs::Letters::line_unspaced, crate::proofs::Letters::line_other))]
pub fn read(line: &[u8]) -> Option<Line>
    ensures { result ≡ line_of line.now }
{
    match line {
        b"o" => Some(Line::Opening),
        b"p" => Some(Line::Pick),
        [b'f', b' ', text @ ..] => row(text),
        [b'a', b' ', text @ ..] => arrival(text),
        _ => None,
    }
}
