// Runs texts through Check's core and prints number, line, field, functions and instructions of each. Standard input holds the texts, parted by byte 30.
// Assumes of std that bytes arrive and are written.
#![tactic(auto)]

use meaning::{Checked, MOST_FUNCTIONS};
use reading::TABLE_SYMBOLS;
use std::io;
use table::Table;

// Parts one text from the next; no text of document 01 holds it.
const PART: u8 = 30;

fn judge(rt: &impl Print, text: &[u8]) -> io::Result<()> {
    let mut table = Table::<MOST_FUNCTIONS, TABLE_SYMBOLS>::new();
    let c = Checked::of(reading::read_table(text, &mut table));
    // `listed` prints the same five: a line each, and a `Display` of `Checked` would be no shorter.
    println!(rt;
        "{}\t{}\t{}\t{}\t{}",
        c.number, c.line, c.field, c.functions, c.instructions
    )
}

fn main(rt: HostRuntime) -> io::Result<()> {
    let mut input = [0u8; 131072];
    let n = intake::read_full(&rt, &mut input)?;
    for text in input[..n].split_inclusive(|b| *b == PART) {
        judge(&rt, text.strip_suffix(&[PART]).unwrap_or(text))?;
    }
    Ok(())
}
