// The script program: document 01, "The script program". It runs a script of calls and writes a line for each reply.
// Everything between the bytes read and the bytes written is `lines`, proved to the letter: where lines end, what they
// say, the calls, the output, and that `run_script` writes all of it, in order and once, to a writer that keeps what it
// is given. That the calls are those of `uplink` is the contract of `run`; the rest of this file is proved safe and to
// end. What no proof says, since no contract can say what standard input gives and standard output takes, is that
// `main` hands `run` the first 65,536 bytes of the one and the other as its writer.
#![tactic(auto)]

ghost use Rattle.std.specs.Prelude.{OnOk};
ghost use Rattle.std.specs.Io.KnownBytes.{Appends};
ghost use Rattle.lines.specs.Step.{first_state};
ghost use Rattle.lines.specs.Whole.{lines_of, output_from};

use std::io;
use std::io::Write;
use uplink::Record;

// All lines of the input by the first engine, a buffer of output at a time. An error where the writer does not take
// every buffer. `plain` has the same over the other engine's record, with its own name in the messages.
fn run<W: Write>(writer: &mut W, input: &[u8]) -> io::Result<()>
    ensures { OnOk result (Appends (W.contents writer.old) (W.contents writer.new)
        (output_from first_state (lines_of input.now))) }
{
    lines::run_script::<Record, _>(writer, input)
}

fn main(rt: HostRuntime) {
    let mut input = [0u8; 65536];
    let Ok(count) = console::read_input(&mut rt.stdin(), &mut input) else {
        let _ = eprintln!(rt; "script: standard input failed");
        return;
    };
    if run(&mut rt.stdout(), &input[..count]).is_err() {
        let _ = eprintln!(rt; "script: standard output failed");
    }
}
