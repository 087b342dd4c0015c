// The plain engine's script program: it runs a script of calls as the script program does (document 01, "The script
// program"), by leap backward (document 02 c), and writes the same lines with the plain engine's own tags and clock.
// Everything between the bytes read and the bytes written is `lines`, proved to the letter for any engine. That the calls
// are those of `backward` is the contract of `run`; the rest of this file is proved safe and to end. What no proof says,
// since no contract can say what standard input gives and standard output takes, is that `main` hands `run` the first
// 65,536 bytes of the one and the other as its writer.
#![tactic(auto)]

ghost use Rattle.std.specs.Prelude.{OnOk};
ghost use Rattle.std.specs.Io.KnownBytes.{Appends};
ghost use Rattle.lines.specs.Rules.{plain_rules};
ghost use Rattle.lines.specs.Step.{start_by};
ghost use Rattle.lines.specs.Whole.{lines_of, output_by};

use backward::Record;
use std::io;
use std::io::Write;

// All lines of the input by the plain engine, each output line written as it comes. An error where the writer does not
// take every line. `script` has the same over the other engine's record, with its own name in the messages.
fn run<W: Write>(writer: &mut W, input: &[u8]) -> io::Result<()>
    ensures { OnOk result (Appends (W.contents writer.old) (W.contents writer.new)
        (output_by plain_rules (start_by plain_rules) (lines_of input.now))) }
{
    lines::run_script_by_line::<Record, _>(writer, input)
}

fn main(rt: HostRuntime) {
    let mut input = [0u8; 65536];
    let Ok(count) = console::read_input(&mut rt.stdin(), &mut input) else {
        let _ = eprintln!(rt; "plain: standard input failed");
        return;
    };
    if run(&mut rt.stdout(), &input[..count]).is_err() {
        let _ = eprintln!(rt; "plain: standard output failed");
    }
}
