// Counts the board of the sheet on standard input: how many jobs passed, failed and never ended.
#![tactic(auto)]

ghost use Rattle.std.specs.Io.{ReadsAtMost};

use std::io;
use std::io::Read;

// Reads until the buffer is full or the input ends, and returns how many bytes it put at the buffer's start.
// kept in both programs: what a contract can say of any reader is too little for a public function. A turn goes on by what a read gives.
fn read_full<R: Read>(input: &mut R, buffer: &mut [u8]) -> io::Result<usize>
    ensures { ReadsAtMost result buffer.new }
{
    let mut done = 0;
    while done < buffer.len() {
        let n = input.read(&mut buffer[done..])?;
        if n == 0 {
            break;
        }
        done += n;
    }
    Ok(done)
}

fn main(rt: HostRuntime) -> io::Result<()> {
    let mut buffer = [0u8; 65537];
    let n = read_full(&mut rt.stdin(), &mut buffer)?;
    let mut work = [0u32; 8192];
    let mut out = [0u8; 128];
    let end = texts::board(&buffer[..n], &mut work, &mut out);
    rt.write_all(&out[..end])
}
