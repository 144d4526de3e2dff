// Lists the sheet on standard input: each column's kind, plan, count and size, and its numbers.
#![tactic(auto)]

ghost use Rattle.std.specs.Io.{ReadsAtMost};

use std::io;
use std::io::Read;

// Reads until the buffer is full or the input ends, and returns how many bytes it put at the buffer's start.
// kept in both programs: what a contract can say of any reader is too little for a public function. A turn goes on by what a read gives.
fn read_full<R: Read>(input: &mut R, buffer: &mut [u8]) -> io::Result<usize>
    ensures { ReadsAtMost result buffer.new }
{
    let mut done = 0;
    while done < buffer.len() {
        let n = input.read(&mut buffer[done..])?;
        if n == 0 {
            break;
        }
        done += n;
    }
    Ok(done)
}

fn main(rt: HostRuntime) -> io::Result<()> {
    let mut buffer = [0u8; 65537];
    let n = read_full(&mut rt.stdin(), &mut buffer)?;
    let mut work = [0u32; 8192];
    let mut list = [0u32; 1024];
    let mut out = [0u8; 270000];
    let end = texts::listing(&buffer[..n], &mut work, &mut list, &mut out);
    rt.write_all(&out[..end])
}
