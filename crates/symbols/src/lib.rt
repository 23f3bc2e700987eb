// One field to a symbol of the table, which may be unknown. A name is looked up as one number (`fields::packed_name`), so a field costs its own bytes
// and one comparison a function. Assumes nothing.
#![tactic(auto)]

ghost use Rattle.std.specs.Prelude.{◌≡◌, true, List, map, ◌≤◌, length};
ghost use Rattle.meaning.specs.Numbers.{most_functions};
ghost use Rattle.meaning.specs.Text.{Field, is_visible};
ghost use Rattle.meaning.specs.Terms.{symbol};
ghost use Rattle.fields.specs.Fields.{packed};
ghost use Rattle.table.specs.Symbols.{symbol_in};
ghost use Rattle.symbols.specs.Symbols.{Named, short_symbol, named_as, symbol_by, some_bytes_symbol};

use table::{Sort, Symbol};
use word::Operation;

// `true`, `false` and `cond` as numbers. (A constant calls no function, not even `from_le_bytes`.)
const TRUE: u64 = 1702195828;

const FALSE: u64 = 435728179558;

const COND: u64 = 1684959075;

// The symbol that one byte is whatever names there are.
#[tactic(auto, using(crate::proofs::Laws::short_is, std::proofs::lemmas::Bool::Decides::nat_tests), unfolding(crate::proofs::Laws::short_by))]
fn short(b: u8) -> Symbol
    ensures { result ≡ symbol_in (short_symbol b) }
{
    match b {
        b'0'..=b'9' => Symbol::Constant(Sort::Number, u32::from(b - b'0')),
        b'a'..=b'h' => Symbol::Argument(u32::from(b - b'a')),
        b'!' => Symbol::Not,
        b'%' => Symbol::Operation(Operation::LeftOver),
        b'&' => Symbol::Operation(Operation::And),
        b'*' => Symbol::Operation(Operation::Times),
        b'+' => Symbol::Operation(Operation::Plus),
        b'-' => Symbol::Operation(Operation::Minus),
        b'/' => Symbol::Operation(Operation::Divided),
        b'<' => Symbol::Operation(Operation::Below),
        b'=' => Symbol::Operation(Operation::Same),
        b'|' => Symbol::Operation(Operation::Or),
        _ => Symbol::Unknown,
    }
}

// The function that has a packed name: each is looked at, since there are at most 64 and a map would need a heap.
#[tactic(auto, using(crate::proofs::Laws::named_end, crate::proofs::Laws::named_here, crate::proofs::Laws::named_on))]
fn function_of(names: &[u64], name: u64) -> Symbol
    requires { length names.now ≤ most_functions }
    ensures { result ≡ symbol_in (named_as 0 names.now name) }
{
    for (f, n) in names.iter().enumerate() {
        if name == *n {
            return Symbol::Function(f as u32);
        }
    }
    Symbol::Unknown
}

// A field of no byte or of two to eight.
#[tactic(auto, unfolding(crate::specs::Symbols::some_bytes_symbol, table::specs::Symbols::symbol_in, table::specs::Symbols::op_symbol))]
fn some_bytes(names: &[u64], f: &[u8]) -> Symbol
    requires { (length names.now ≤ most_functions) × (length f.now ≤ 8) }
    ensures { result ≡ symbol_in (some_bytes_symbol names.now f.now) }
{
    match fields::packed_name(f) {
        TRUE => Symbol::Constant(Sort::YesNo, 1),
        FALSE => Symbol::Constant(Sort::YesNo, 0),
        COND => Symbol::Cond,
        name => match fields::decimal_value(f) {
            Some(value) => Symbol::Constant(Sort::Number, value),
            None => function_of(names, name),
        },
    }
}

// The symbol that a field is, where the functions have the packed names.
pub fn symbol_of(names: &[u64], f: &[u8]) -> Symbol
    requires { length names.now ≤ most_functions }
    ensures by { result ≡ symbol_in (symbol_by names.now f.now) }
    ensures is { (N : List Field) → Named N → names.now ≡ map packed N → is_visible f.now ≡ true → result ≡ symbol_in (symbol N f.now) }
{
    match f.len() {
        1 => match short(f[0]) {
            Symbol::Unknown => function_of(names, fields::packed_name(f)),
            known => known,
        },
        0..=fields::NAME_BYTES => some_bytes(names, f),
        _ => match fields::decimal_value(f) {
            Some(value) => Symbol::Constant(Sort::Number, value),
            None => Symbol::Unknown,
        },
    }
}
