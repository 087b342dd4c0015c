// The lines of a script: document 01, "The script program". A line is read to a call, the call is made, and its reply
// is written as a line. `read` takes any bytes, `Script::step` is the whole step from a state and a line to the next
// state and the output line, `Script::run` does as many lines of an input as its output buffer has room for, and
// `run_script` does them all, as does `run_script_by_line`, which writes each output line by itself. The calls are those
// of an `Engine`: the first one, where no other is named.
#![tactic(auto)]

ghost use Rattle.std.specs.Prelude.{◌≡◌};
ghost use Rattle.arrayvec.specs.ArrayVec.{array_vec_len};

mod engine;
mod reading;
mod running;
mod steps;
mod text;
mod writing;

use arrayvec::ArrayVec;
pub use engine::Engine;
pub use reading::read;
pub use running::{run_script, run_script_by_line};
pub use steps::{NO_HEADER, start};
pub use text::{append, collect, line_end};
use uplink::Record;
pub use writing::{put_fields, put_number, write_arrival, write_bad, write_opening, write_pick};

// What a line of a script says. Any other line is bad.
#[derive(Drop)]
pub enum Line {
    // `f SHARE LARGEST`: a row for the table.
    Row { share: u32, largest: u32 },
    // `o`
    Opening,
    // `a FLOW LENGTH HANDLE`
    Arrival { flow: u32, length: u32, handle: u32 },
    // `p`
    Pick,
}

// What a script has done so far, but for the two memories: the record of its engine that is held, and the table's rows
// in two lists, as an opening takes them (document 01).
#[derive(Drop)]
pub struct Script<E = Record> {
    pub held: E,
    pub shares: ArrayVec<u32, 65>,
    pub largest: ArrayVec<u32, 65>,
    ghost one_length: { array_vec_len shares ≡ array_vec_len largest },
}

// The script after a line, and how many bytes of the lent buffer are the output line: nothing here allocates.
#[derive(Drop)]
pub struct Stepped<E = Record> {
    pub next: Script<E>,
    pub written: usize,
}

// The script after some lines, the place in the input that comes next, and how many bytes of the lent buffer, as at
// `Stepped`, are their output.
#[derive(Drop)]
pub struct Ran<E = Record> {
    pub next: Script<E>,
    pub at: usize,
    pub written: usize,
}
