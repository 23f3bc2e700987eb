// The core of Check: any bytes to an answer and, where they are accepted, to names, signatures, addresses and the table of symbols in lent arrays.
// Its cost grows linearly with the text but for names: a comparison for each pair of functions and for each symbol and function. Assumes nothing.
#![tactic(auto)]

ghost use Rattle.std.specs.Prelude.{◌≡◌, ◌∷◌, map, ◌+◌, ◌<◌, ◌≤◌, length};
ghost use Rattle.std.specs.List.{range_with_len};
ghost use Rattle.meaning.specs.Text.{fine};
ghost use Rattle.meaning.specs.Terms.{Program};
ghost use Rattle.meaning.specs.Check.{check};
ghost use Rattle.meaning.specs.Said.{found, accepted};
ghost use Rattle.meaning.specs.Numbers.{most_arguments};
ghost use Rattle.table.specs.Table.{Holds};
ghost use Rattle.table.specs.declared.Symbol.TheVariants.{Argument, Function};
ghost use Rattle.lines.specs.Splice.{splice};
ghost use Rattle.reading.specs.Reading.{Fit};

use meaning::{Accepted, Number, Refusal};
use table::{Signature, Symbol, Table};

// Room beside the bodies' symbols: the initial term has nine symbols at most; one word is to spare, for RET.
pub const INITIAL_ROOM: usize = meaning::MOST_ARGUMENTS + 2;

// Arrays of symbols of this length fit every text.
pub const TABLE_SYMBOLS: usize = meaning::MOST_SYMBOLS + INITIAL_ROOM;

// "The initial term is the entry applied to its own arguments": the address after it.
fn initial(arguments: u32, symbols: &mut [Symbol], ends: &mut [u32]) -> usize
    requires few { arguments ≤ most_arguments }
    requires room { (arguments < length symbols.old) × (arguments < length ends.old) }
    ensures place { result ≡ arguments + 1 }
    ensures symbols { symbols.new ≡ splice symbols.old 0 (Function 0 ∷ map Argument (range_with_len 0 arguments)) }
    ensures ends { ends.new ≡ splice ends.old 0 ((arguments + 1) ∷ range_with_len 2 arguments) }
{
    symbols[0] = Symbol::Function(0);
    ends[0] = arguments + 1;
    for i in 0..arguments {
        symbols[i as usize + 1] = Symbol::Argument(i);
        ends[i as usize + 1] = i + 2;
    }
    arguments as usize + 1
}

// "Order: 1, then 2 over all lines, 3, 4, then 5 and 6 by the first place"; 13, 14 and 15 stand where 5 stood.
// The arrays are lent one by one: a caller's may be of any lengths, each its own, as long as they fit.
pub fn read(
    text: &[u8],
    names: &mut [u64],
    heads: &mut [Signature],
    bodies: &mut [u32],
    symbols: &mut [Symbol],
    ends: &mut [u32],
) -> Result<Accepted, Refusal>
    requires { Fit text.now names.old heads.old bodies.old symbols.old ends.old }
    ensures answer { result ≡ found accepted (check text.now) }
    ensures table { (P : Program) → check text.now ≡ fine P → Holds P symbols.new ends.new heads.new bodies.new }
{
    if meaning::MOST_BYTES < text.len() {
        return Err(Refusal {
            number: Number::Long,
            line: 0,
            field: 0,
        });
    }
    let counted = lines::scan(text, names, heads)?;
    lines::counts(text, counted.functions, counted.symbols)?;
    let names = &names[..counted.functions];
    lines::repeats(names)?;
    let heads = &heads[..counted.functions];
    let first = initial(heads[0].sorts.count, symbols, ends);
    let end = bodies::read_lines(text, 0, 0, names, heads, first, bodies, symbols, ends)?;
    Ok(Accepted {
        functions: counted.functions,
        instructions: end + 1,
    })
}

// The same with the arrays of one table.
pub fn read_table<const F: usize, const S: usize>(
    text: &[u8],
    table: &mut Table<F, S>,
) -> Result<Accepted, Refusal>
    requires { Fit text.now table.old.names table.old.heads table.old.bodies table.old.symbols table.old.ends }
    ensures answer { result ≡ found accepted (check text.now) }
    ensures table { (P : Program) → check text.now ≡ fine P → Holds P table.new.symbols table.new.ends table.new.heads table.new.bodies }
{
    read(
        text,
        &mut table.names,
        &mut table.heads,
        &mut table.bodies,
        &mut table.symbols,
        &mut table.ends,
    )
}
