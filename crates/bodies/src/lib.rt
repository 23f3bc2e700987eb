// The bodies of a text by line: each body's fields go as symbols into the table, then the table is read as one term. Two looks at each byte (where a
// line and its fields end), one to make a symbol of a field, one comparison a function for a name. Assumes nothing.
#![tactic(auto)]

ghost use Rattle.std.specs.Prelude.{◌≡◌, map, ◌+◌, ◌-◌, ◌≤◌, ◌<◌, length, drop};
ghost use Rattle.meaning.specs.Arithmetic.{modulus};
ghost use Rattle.meaning.specs.Numbers.{most_bytes, most_functions};
ghost use Rattle.meaning.specs.Text.{tab, lines};
ghost use Rattle.meaning.specs.Terms.{read_bodies};
ghost use Rattle.fields.specs.Fields.{rest};
ghost use Rattle.lines.specs.Splice.{splice};
ghost use Rattle.lines.specs.Lines.{total, Right, raw_lines, name_number, line_signature};
ghost use Rattle.bodies.specs.Bodies.{symbols_by, Finishes, refused_at};

use lines::{LineFields, Lines};
use meaning::{Number, Refusal};
use table::{Signature, Symbol};
use terms::{Body, Fault};

// The fields of a body, which begins with the tab before the first of them, as symbols, into the table from `from` on; the address after them, which is
// what the loop counts.
fn fill(body: &[u8], names: &[u64], from: usize, symbols: &mut [Symbol]) -> usize
    requires few { length names.now ≤ most_functions }
    requires room { from + length (rest tab body.now) ≤ length symbols.old }
    ensures place { result ≡ from + length (rest tab body.now) }
    ensures symbols { symbols.new ≡ splice symbols.old from (symbols_by names.now (rest tab body.now)) }
{
    let mut to = from;
    for field in (LineFields { rest: body }) {
        symbols[to] = symbols::symbol_of(names, field);
        to += 1;
    }
    to
}

// Why a text is refused where a body of line n, counted from 0, is wrong that begins at `from`.
fn refused(fault: Fault, n: usize, from: usize) -> Refusal
    requires { (from ≤ fault.at) × (5 + (fault.at - from) < modulus) × (n ≤ most_functions) }
    ensures { result ≡ refused_at fault n from }
{
    Refusal {
        number: Number::from(fault.wrong),
        line: n as u32 + 1,
        field: (lines::FIRST_SYMBOL + (fault.at - from)) as u32,
    }
}

// What stands in a text from `start` on: nothing past its end.
fn rest_of(text: &[u8], start: usize) -> &[u8]
    ensures { result.now ≡ drop start text.now }
{
    match text.get(start..) {
        Some(rest) => rest,
        None => &[],
    }
}

// The bodies of the lines that begin at `start`, the first of them being line `first` counted from 0, line by line into the table from `from` on, and
// their addresses: the address after them. A whole text begins at 0, with line 0; a text is read on where another call has stopped.
// The arrays are lent one by one: each contract with a struct of them would also have to say that it still holds the same three, and which stay.
pub fn read_lines(
    text: &[u8],
    start: usize,
    first: usize,
    names: &[u64],
    heads: &[Signature],
    from: usize,
    bodies: &mut [u32],
    symbols: &mut [Symbol],
    ends: &mut [u32],
) -> Result<usize, Refusal>
    requires shape { (length text.now ≤ most_bytes) × Right (raw_lines text.now) × Right (raw_lines (drop start text.now)) × (drop first (lines text.now) ≡ lines (drop start text.now)) }
    requires noted { (names.now ≡ map name_number (lines text.now)) × (heads.now ≡ map line_signature (lines text.now)) × (length (lines text.now) ≤ most_functions) × (first ≤ most_functions) }
    requires room { (length (lines text.now) ≤ length bodies.old) × (from + total (lines (drop start text.now)) ≤ length symbols.old) × (from + total (lines (drop start text.now)) ≤ length ends.old) × (5 + (from + total (lines (drop start text.now))) < modulus) }
    ensures { Finishes first from bodies.old bodies.new symbols.old symbols.new ends.old ends.new (read_bodies (lines text.now) (first + 1) (lines (drop start text.now))) result }
{
    let mut at = from;
    let rest = rest_of(text, start);
    for (n, line) in (Lines { rest }).enumerate() {
        let l = first + n;
        bodies[l] = at as u32;
        let tabs = lines::tabs_of(line);
        let end = fill(&line[tabs.result..], names, at, symbols);
        let body = Body {
            symbols: &symbols[..end],
            heads,
            own: heads[l],
        };
        at = body.read(at, ends).map_err(|fault| refused(fault, l, at))?;
    }
    Ok(at)
}
