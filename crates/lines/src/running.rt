// The lines of an input, one after the other: as many as the output buffer has room for, or all.
ghost use Rattle.std.specs.Prelude.{◌≤◌, length, OnOk};
ghost use Rattle.std.specs.Io.KnownBytes.{Appends};
ghost use Rattle.lines.specs.Step.{script_state, start_by};
ghost use Rattle.lines.specs.Whole.{Runs, lines_of, output_by, run_by};

use crate::steps::start;
use crate::text::{append, line_end};
use crate::{Engine, Ran, Script};
use std::io;
use std::io::Write;

impl<E: Engine> Script<E> {
    // The lines from `from` on, while there is room for any output line. The place in the input moves by a line at a
    // time and is given back, so that the next run goes on there: no iterator has it.
    #[tactic(auto, using(crate::specs::Ends::part_length, crate::specs::Ends::line_start, crate::specs::Ends::line_within, crate::specs::Ends::next_fits, crate::proofs::Onward::going_within, crate::proofs::Onward::line_room))]
    pub fn run(
        self,
        input: &[u8],
        from: usize,
        lengths: &mut [u16],
        handles: &mut [u32],
        out: &mut [u8],
    ) -> Ran<E>
        ensures exact { Runs result lengths.new handles.new out.old out.new
            (run_by E.rules (length out.old) (script_state self lengths.old handles.old)
            input.now from) }
    {
        let mut script = self;
        let mut line = [0u8; 160];
        let mut at = from;
        let mut used = 0;
        while at < input.len() {
            if out.len() - used < 160 {
                return Ran {
                    next: script,
                    at,
                    written: used,
                };
            }
            let end = line_end(input, at);
            let stepped = script.step(&input[at..end], lengths, handles, &mut line);
            used = append(out, used, &line[..stepped.written]);
            script = stepped.next;
            at = end + 1;
        }
        Ran {
            next: script,
            at,
            written: used,
        }
    }
}

// A whole script, from its first line on and with fresh memories: the output is written a buffer at a time, and a buffer
// that has room for one line alone is written as soon as a line is in it. An error where the writer does not take every
// buffer. The place goes on to where each run ended: no iterator has it.
fn run_through<E: Engine, W: Write>(writer: &mut W, input: &[u8], out: &mut [u8]) -> io::Result<()>
    requires { 160 ≤ length out.old }
    ensures { OnOk result (Appends (W.contents writer.old) (W.contents writer.new)
        (output_by E.rules (start_by E.rules) (lines_of input.now))) }
{
    let mut lengths = [0u16; 4096];
    let mut handles = [0u32; 4096];
    let mut script = start::<E>();
    let mut at = 0;
    while at < input.len() {
        let ran = script.run(input, at, &mut lengths, &mut handles, out);
        writer.write_all(&out[..ran.written])?;
        script = ran.next;
        at = ran.at;
    }
    Ok(())
}

// The same, with a buffer of 65,536 bytes.
pub fn run_script<E: Engine, W: Write>(writer: &mut W, input: &[u8]) -> io::Result<()>
    ensures { OnOk result (Appends (W.contents writer.old) (W.contents writer.new)
        (output_by E.rules (start_by E.rules) (lines_of input.now))) }
{
    run_through::<E, W>(writer, input, &mut [0u8; 65536])
}

// The same, but that each line is written as it comes: the buffer has room for one.
pub fn run_script_by_line<E: Engine, W: Write>(writer: &mut W, input: &[u8]) -> io::Result<()>
    ensures { OnOk result (Appends (W.contents writer.old) (W.contents writer.new)
        (output_by E.rules (start_by E.rules) (lines_of input.now))) }
{
    run_through::<E, W>(writer, input, &mut [0u8; 160])
}
