// The figures: each line of standard input has a number of code words, a number of work words, and what stands on the program's standard input, with
// \t, \n, \\ and \xHH for bytes that are no plain text. For each the program's line is written, so much memory being lent.
// The cases are document 01's rows, both sides of each of its limits, the rules of examples/, and the vectors of implementations that were written apart.
// Assumes of std that the bytes of standard input arrive in the buffer and those of the lines are written.
#![tactic(auto)]

ghost use Rattle.std.specs.Prelude.{◌<◌, ◌≤◌, length};
ghost use Rattle.std.specs.Iterator.{at_most};

use arrayvec::ArrayVec;
use meaning::{MOST_CODE_WORDS, WORK_WORDS};
use order::MOST_INPUT;
use std::io;

// A digit of a decimal or, from ten on, of two that follow \x: by arithmetic, since any byte is to give one and the same cases are to be printed.
fn digit(b: u8) -> u8
    ensures { result < 87 }
{
    if b < 58 { b % 48 } else { b % 87 }
}

// A decimal of five digits at most, or the longest that is lent.
fn length_of(digits: &[u8], most: usize) -> usize
    ensures { result ≤ most }
{
    digits
        .iter()
        .fold(0, |n, b| n % 10000 * 10 + usize::from(digit(*b)))
        .min(most)
}

// The byte of two digits.
fn two_digits(high: u8, low: u8) -> u8 {
    let n = u32::from(digit(high)) * 16 + u32::from(digit(low));
    (n % 256) as u8
}

// What \t, \n and \\ stand for.
fn plain(b: u8) -> u8 {
    match b {
        b't' => b'\t',
        b'n' => b'\n',
        _ => b,
    }
}

// The bytes that a line stands for.
#[derive(Drop)]
struct Unescaped<'a>(&'a [u8]);

impl<'a> Iterator for Unescaped<'a> {
    type Item = u8;

    ghost remaining = { λ s. at_most (length s.0.now) };

    fn next(&mut self) -> Option<u8> {
        let (byte, rest) = match self.0 {
            [] => return None,
            [b'\\', b'x', high, low, rest @ ..] => (two_digits(*high, *low), rest),
            [b'\\', b, rest @ ..] => (plain(*b), rest),
            [b, rest @ ..] => (*b, rest),
        };
        self.0 = rest;
        Some(byte)
    }
}

fn main(rt: HostRuntime) -> io::Result<()> {
    let mut lines = [0u8; 262144];
    let mut input = ArrayVec::<u8, MOST_INPUT>::new();
    let mut code = [0u32; MOST_CODE_WORDS];
    let mut work = [0u32; WORK_WORDS];
    let n = intake::read_full(&rt, &mut lines)?;
    for line in lines[..n].split_inclusive(|b| *b == b'\n') {
        let line = line.strip_suffix(b"\n").unwrap_or(line);
        let mut parts = line.splitn(3, |b| *b == b'\t');
        let (Some(c), Some(w), Some(text)) = (parts.next(), parts.next(), parts.next()) else {
            continue;
        };
        let c = length_of(c, MOST_CODE_WORDS);
        let w = length_of(w, WORK_WORDS);
        input.clear();
        // What finds no room is left out.
        let _ = input.extend(Unescaped(text));
        rt.print(console::respond(input.as_slice(), &mut code[..c], &mut work[..w]))?;
    }
    Ok(())
}
