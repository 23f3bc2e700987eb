// An answer as the one line of output: six decimals, parted by tabs and ended by byte 10. Assumes nothing.
#![tactic(auto)]

ghost use Rattle.std.specs.Prelude.{◌≡◌, ◌++◌, ◌+◌, ◌<◌, ◌≤◌};
ghost use Rattle.meaning.specs.Program.{printed_field, printed};
ghost use Rattle.arrayvec.specs.ArrayString.{array_string_len};

use arrayvec::ArrayString;
use meaning::Answer;

// Six decimals of at most ten digits, each with the byte after it.
pub const MOST_PRINTED: usize = 66;

// Adds a decimal and the byte after it.
#[tactic(auto, using(crate::proofs::Laws::field_printed))]
fn put_field(line: &mut ArrayString<MOST_PRINTED>, n: u32, end: char)
    requires ascii { end < 128 }
    requires room { array_string_len line.old + 11 ≤ MOST_PRINTED }
    ensures bytes { line.new.bytes ≡ line.old.bytes ++ printed_field n end }
    ensures len { array_string_len line.new ≤ array_string_len line.old + 11 }
{
    line.push_str(itoa::Buffer::new().format(n));
    line.push(end);
}

// The whole line, in bytes and by no `Display` of its own: what that writes is promised only where it gives `Ok`, and these bytes are promised always.
#[tactic(auto, unfolding(meaning::specs::Program::printed))]
pub fn print(answer: Answer) -> ArrayString<MOST_PRINTED>
    ensures { result.bytes ≡ printed answer }
{
    let mut line = ArrayString::new();
    put_field(&mut line, answer.number, '\t');
    put_field(&mut line, answer.value, '\t');
    put_field(&mut line, answer.line, '\t');
    put_field(&mut line, answer.field, '\t');
    put_field(&mut line, answer.steps, '\t');
    put_field(&mut line, answer.rewrites, '\n');
    line
}
