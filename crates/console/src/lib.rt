// An input read whole, as standard input is: what every program here begins with.
#![tactic(auto)]

ghost use Rattle.std.specs.Prelude.{◌<◌, length, take, IfOk};
ghost use Rattle.std.specs.Io.KnownBytes.{Consumes, IsAtEnd};
ghost use Rattle.console.specs.Counts.{IsPrefixLen, bytes_read};

use std::io::Read;

// A read that failed, and how many bytes were read before it.
#[derive(Drop)]
pub struct Stopped {
    pub count: usize,
}

// Reads until the buffer is full, the input ends or a read fails, and gives how many bytes were read.
pub fn read_input<R: Read>(reader: &mut R, input: &mut [u8]) -> Result<usize, Stopped>
    ensures within { IsPrefixLen (bytes_read result) input.new }
    ensures bytes { Consumes (R.remaining reader.old) (R.remaining reader.new) (take (bytes_read result) input.new) }
    ensures end { IfOk result (λ count. count < length input.new → IsAtEnd (R.remaining reader.new)) }
{
    // The place goes on by what each read gave: no iterator has it.
    let mut count = 0;
    while count < input.len() {
        let Ok(more) = reader.read(&mut input[count..]) else {
            return Err(Stopped { count });
        };
        if more == 0 {
            return Ok(count);
        }
        count += more;
    }
    Ok(count)
}
