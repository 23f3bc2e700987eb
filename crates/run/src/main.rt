// The program: standard input is a first line with the step limit and the arguments, then the text; standard output is one line, the answer.
// It reads at most 129 bytes more than a text can have: what follows cannot change the answer (`enough` in order/proofs/Enough.antt).
// The line is `output` of the input in meaning's page Program (console's `respond`, with `program_output` in console/specs/Responses.antt).
// Assumes of std that the bytes of standard input arrive in the buffer and those of the line are written.
#![tactic(auto)]

use meaning::{MOST_CODE_WORDS, WORK_WORDS};
use order::MOST_INPUT;
use std::io;

fn main(rt: HostRuntime) -> io::Result<()> {
    let mut input = [0u8; MOST_INPUT];
    let mut code = [0u32; MOST_CODE_WORDS];
    let mut work = [0u32; WORK_WORDS];
    let n = intake::read_full(&rt, &mut input)?;
    rt.print(console::respond(&input[..n], &mut code, &mut work))
}
