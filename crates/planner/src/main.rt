// The program: reads a saved search from standard input and prints what becomes of it.
#![tactic(auto)]

ghost use Rattle.std.specs.Prelude.{◌≤◌, length, take, OnOk};
ghost use Rattle.std.specs.Io.KnownBytes.{Appends, Consumes};

use answer::text::Text;
use std::io;
use std::io::{Read, Write};

// One byte more than 101 blocks, so that a file that is too long is seen to be.
fn main(rt: HostRuntime) -> io::Result<()> {
    let mut file = [0u8; 51713];
    let length = read_full(&mut rt.stdin(), &mut file);
    print(&mut rt.stdout(), answer::answer_to(&file[..length]))
}

// Reads until the buffer is full, the input ends or a read fails: what was read is the file.
fn read_full<R: Read>(reader: &mut R, file: &mut [u8]) -> usize
    ensures within { result ≤ length file.new }
    ensures bytes { Consumes (R.remaining reader.old) (R.remaining reader.new) (take result file.new) }
{
    let mut done = 0;
    // Each turn goes on by as much as was read; std has no call that fills a slice as far as the input goes.
    while done < file.len() {
        match reader.read(&mut file[done..]) {
            Ok(0) => return done,
            Ok(n) => done += n,
            Err(_) => return done,
        }
    }
    done
}

// Writes a text.
fn print<W: Write>(writer: &mut W, text: Text) -> io::Result<()>
    requires { text.length ≤ length text.bytes }
    ensures { OnOk result (Appends (W.contents writer.old) (W.contents writer.new) (take text.length text.bytes)) }
{
    let bytes = text.bytes;
    let length = text.length;
    writer.write_all(&bytes[..length])
}
