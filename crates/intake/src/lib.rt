// Standard input, read into memory that is lent: as much of it as there is room for. Assumes of std that the bytes arrive in the buffer.
#![tactic(auto)]

ghost use Rattle.std.specs.Prelude.{◌≡◌, ◌≤◌, IfOk, length};

use std::io;
use std::io::Read;

// Reads until the buffer is full or the input has ended; how many bytes have come. A read that fails ends it with that error and no other.
// Written out: std has `read_exact`, which fails where the input is shorter, and `read_to_end`, which needs a heap.
pub fn read_full(rt: &impl Input, bytes: &mut [u8]) -> io::Result<usize>
    ensures within { IfOk result (λ n. n ≤ length bytes.old) }
    ensures stays { length bytes.new ≡ length bytes.old }
{
    let mut reader = rt.reader();
    let mut at: usize = 0;
    for _ in 0..u64::MAX {
        let n = reader.read(&mut bytes[at..])?;
        if n == 0 {
            break;
        }
        at += n;
    }
    Ok(at)
}
