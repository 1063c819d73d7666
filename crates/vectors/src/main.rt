// The known-answer program: a request a line in, an answer a line out.
#![tactic(auto)]

mod answer;
mod kinds;
mod request;

ghost use Rattle.std.specs.Prelude.{◌≡◌, [], OnOk};
ghost use Rattle.vectors.specs.Lines.{kept};

use answer::answer;
use request::LONGEST_LINE;
use std::alloc::AllocError;
use std::io;
use std::io::Read;

// A line is kept up to one byte past the longest that can be a request.
const KEPT: usize = LONGEST_LINE + 1;

// Adds a byte to a line; what goes past the kept length is let go.
fn keep(line: &mut Vec<u8>, byte: u8) -> Result<(), AllocError>
    ensures { OnOk result (line.new.items ≡ kept line.old.items byte) }
{
    if line.len() < KEPT {
        line.push(byte)?;
    }
    Ok(())
}

// Answers the line, and begins the next.
fn finish(rt: &HostRuntime, line: &mut Vec<u8>) -> io::Result<()>
    ensures { OnOk result (line.new.items ≡ []) }
{
    let text = answer(rt.alloc(), line.as_slice())?;
    line.clear();
    println!(rt; "{text}")
}

// Answers each line that ends in these bytes.
fn take(rt: &HostRuntime, line: &mut Vec<u8>, bytes: &[u8]) -> io::Result<()> {
    for byte in bytes {
        match *byte {
            b'\n' => finish(rt, line)?,
            byte => keep(line, byte)?,
        }
    }
    Ok(())
}

fn main(rt: HostRuntime) -> io::Result<()> {
    let mut input = rt.stdin();
    let mut line = Vec::new(rt.alloc());
    // A `BufReader` would want memory before it reads, and its `bytes` three times the time.
    let mut bytes = [0u8; 4096];
    for _ in 0..u64::MAX {
        let n = input.read(&mut bytes)?;
        if n == 0 {
            break;
        }
        take(&rt, &mut line, &bytes[..n])?;
    }
    if line.is_empty() {
        return Ok(());
    }
    finish(&rt, &mut line)
}
