// Lists the code words of texts, one instruction a line, after Translate's answer (number, line, field, functions, instructions).
// Standard input holds the texts, parted by byte 30: document 01's ID, and document 000's Example 73. Assumes of std that bytes arrive and are written.
#![tactic(auto)]

use meaning::{INSTRUCTION_WORDS, MOST_CODE_WORDS};
use std::io;

// Parts one text from the next; no text that is accepted holds it.
const PART: u8 = 30;

// The words of one instruction.
fn show_instruction(rt: &impl Print, words: &[u32]) -> io::Result<()> {
    let Some((last, others)) = words.split_last() else {
        return Ok(());
    };
    for word in others {
        print!(rt; "{word}\t")?;
    }
    println!(rt; "{last}")
}

fn list(rt: &impl Print, text: &[u8], code: &mut [u32]) -> io::Result<()> {
    let c = nespralha::translate(text, code);
    // `checked` prints the same five: a line each, and a `Display` of `Checked` would be no shorter.
    println!(rt;
        "{}\t{}\t{}\t{}\t{}",
        c.number, c.line, c.field, c.functions, c.instructions
    )?;
    for words in code
        .chunks_exact(INSTRUCTION_WORDS)
        .take(c.instructions as usize)
    {
        show_instruction(rt, words)?;
    }
    Ok(())
}

fn main(rt: HostRuntime) -> io::Result<()> {
    let mut input = [0u8; 4096];
    let mut code = [0u32; MOST_CODE_WORDS];
    let n = intake::read_full(&rt, &mut input)?;
    for text in input[..n].split_inclusive(|b| *b == PART) {
        list(&rt, text.strip_suffix(&[PART]).unwrap_or(text), &mut code)?;
    }
    Ok(())
}
