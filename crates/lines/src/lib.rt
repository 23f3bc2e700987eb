// The lines of a text: LINE over all of them, counts, names and signatures on the way; COUNT, NAME. A scan looks twice at each byte (where a line
// ends, what its fields hold) and once more at names and sorts; NAME costs a comparison for each pair of functions. Assumes nothing.
#![tactic(auto)]

ghost use Rattle.std.specs.Prelude.{◌≡◌, [], ◌∷◌, map, ◌+◌, ◌-◌, ◌≤◌, ◌<◌, length, drop, set, MatchOption};
ghost use Rattle.meaning.specs.Numbers.{most_bytes, most_functions};
ghost use Rattle.meaning.specs.Text.{tab, wrong_field, first_wrong, pieces, judge_symbols, judge_counts, lines, line_of, sort_of};
ghost use Rattle.table.specs.Symbols.{sort_in, signature, mask};
ghost use Rattle.fields.specs.Fields.{span, rest};
ghost use Rattle.std.specs.Iterator.{YieldsFirstRef, item_count};
ghost use Rattle.lines.specs.Lines.{raw_lines, shown, outcome, judged_line, body_fields, total, Parted, line_signature, name_number, misfit, Scan, judge_packed};

use meaning::{Number, Refusal};
use table::{Signature, Sort, Sorts};

// How many functions the lines of a text have, and how many body symbols.
#[derive(Clone, Copy)]
pub struct Counted {
    pub functions: usize,
    pub symbols: usize,
}

// The lines of a text, each without the byte 10 that ends it: what stands after the last byte 10 is no line.
#[derive(Drop)]
pub struct Lines<'a> {
    pub rest: &'a [u8],
}

impl<'a> Iterator for Lines<'a> {
    type Item = &'a [u8];

    ghost next_gives = { YieldsFirstRef (λ s. raw_lines s.rest.now) };

    ghost remaining = { item_count (λ s. raw_lines s.rest.now) };

    fn next(&mut self) -> Option<&'a [u8]> {
        let end = fields::piece_end(self.rest, 0, fields::LINE_END);
        if self.rest.len() <= end {
            return None;
        }
        let line = &self.rest[..end];
        self.rest = &self.rest[end + 1..];
        Some(line)
    }
}

// The fields of a line after a tab: `rest` begins with that tab, or is empty where no field is left.
#[derive(Drop)]
pub struct LineFields<'a> {
    pub rest: &'a [u8],
}

impl<'a> Iterator for LineFields<'a> {
    type Item = &'a [u8];

    ghost next_gives = { YieldsFirstRef (λ s. rest tab s.rest.now) };

    ghost remaining = { item_count (λ s. rest tab s.rest.now) };

    fn next(&mut self) -> Option<&'a [u8]> {
        if self.rest.is_empty() {
            return None;
        }
        let end = fields::piece_end(self.rest, 1, fields::TAB);
        let field = &self.rest[1..end];
        self.rest = &self.rest[end..];
        Some(field)
    }
}

// Where the first four tabs of a line stand.
#[derive(Clone, Copy)]
pub struct Tabs {
    pub name: usize,
    pub strict: usize,
    pub sorts: usize,
    pub result: usize,
}

// The line past the last that a text may have.
const OVER_FUNCTIONS: u32 = meaning::MOST_FUNCTIONS as u32 + 1;

// The field of a body's first symbol: four stand before it.
pub const FIRST_SYMBOL: usize = 5;

// The field of the symbol that is one too many, where none stands above the line.
const OVER_SYMBOLS: usize = FIRST_SYMBOL + meaning::MOST_SYMBOLS;

// The fields of a body, which begins with the tab before the first of them: how many they are, or the first of the line that is not visible.
// The loop goes from tab to tab, as far as bytes are visible: over LineFields each byte would be looked at twice.
fn judge_body(body: &[u8]) -> Result<usize, u32>
    requires { length (rest tab body.now) ≤ most_bytes }
    ensures { result ≡ outcome (first_wrong 5 [] (rest tab body.now)) (length (rest tab body.now)) }
{
    let mut tab = 0;
    let mut symbols = 0;
    while tab < body.len() {
        let end = fields::visible_end(body, tab + 1);
        if end == tab + 1 {
            return Err((FIRST_SYMBOL + symbols) as u32);
        }
        if body.len() <= end {
            return Ok(symbols + 1);
        }
        if body[end] != fields::TAB {
            return Err((FIRST_SYMBOL + symbols) as u32);
        }
        tab = end;
        symbols += 1;
    }
    Ok(symbols)
}

// A line: how many symbols its body has, or its first wrong field.
fn judge_line(line: &[u8]) -> Result<usize, u32>
    requires { length line.now ≤ most_bytes }
    ensures { result ≡ judged_line (pieces tab line.now) }
{
    let end = fields::piece_end(line, 0, fields::TAB);
    if !fields::name(&line[..end]) {
        return Err(1);
    }
    let mut others = LineFields { rest: &line[end..] };
    let Some(strict) = others.next().and_then(fields::strict_count) else {
        return Err(2);
    };
    if !others
        .next()
        .is_some_and(|field| fields::sorts(strict, field))
    {
        return Err(3);
    }
    if !others.next().is_some_and(fields::result) {
        return Err(4);
    }
    if others.rest.is_empty() {
        return Err(5);
    }
    judge_body(others.rest)
}

// How many symbols a line's body has.
fn symbols_in(line: &[u8]) -> usize
    ensures { result ≡ body_fields line.now }
{
    fields::occurrences_of(line, fields::TAB).saturating_sub(3)
}

// "COUNT: .. the 1,025th body symbol."
fn symbol_count(text: &[u8]) -> Result<(), Refusal>
    requires { length text.now ≤ most_bytes }
    ensures { result ≡ shown (judge_symbols 1 0 (lines text.now)) }
{
    let mut seen = 0;
    for (n, line) in (Lines { rest: text }).enumerate() {
        let symbols = symbols_in(line);
        if meaning::MOST_SYMBOLS < seen + symbols {
            return Err(Refusal {
                number: Number::Count,
                line: n as u32 + 1,
                field: (OVER_SYMBOLS - seen) as u32,
            });
        }
        seen += symbols;
    }
    Ok(())
}

// "COUNT: line 65 field 0; else the 1,025th body symbol." Lines and body symbols are counted: only a text that is refused is looked at again, for the place.
pub fn counts(text: &[u8], functions: usize, symbols: usize) -> Result<(), Refusal>
    requires { (length text.now ≤ most_bytes) × (functions ≡ length (lines text.now)) × (symbols ≡ total (lines text.now)) }
    ensures { result ≡ shown (judge_counts (lines text.now)) }
{
    if meaning::MOST_FUNCTIONS < functions {
        return Err(Refusal {
            number: Number::Count,
            line: OVER_FUNCTIONS,
            field: 0,
        });
    }
    if symbols <= meaning::MOST_SYMBOLS {
        return Ok(());
    }
    symbol_count(text)
}

// The tabs of a line of the right shape.
pub fn tabs_of(line: &[u8]) -> Tabs
    requires { wrong_field (pieces tab line.now) ≡ 0 }
    ensures { Parted line.now result.name result.strict result.sorts result.result }
{
    let name = fields::piece_end(line, 0, fields::TAB);
    let strict = fields::piece_end(line, name + 1, fields::TAB);
    let sorts = fields::piece_end(line, strict + 1, fields::TAB);
    let result = fields::piece_end(line, sorts + 1, fields::TAB);
    Tabs {
        name,
        strict,
        sorts,
        result,
    }
}

// Sorts as a mask, the first in the lowest bit.
fn sorts_mask(sorts: &[u8]) -> u32
    requires { length sorts.now ≤ 8 }
    ensures { result ≡ mask (map sort_of sorts.now) }
{
    sorts
        .iter()
        .rev()
        .fold(0, |mask, sort| (mask << 1) | u32::from(*sort == b'b'))
}

// The sort that a letter says.
#[tactic(auto, using(std::proofs::lemmas::Bool::Decides::nat_tests), unfolding(meaning::specs::Text::sort_of))]
fn sort(letter: u8) -> Sort
    ensures { result ≡ sort_in (sort_of letter) }
{
    match letter {
        b'b' => Sort::YesNo,
        _ => Sort::Number,
    }
}

// A signature from the fields that say it.
fn sign(strict: u8, sorts: &[u8], res: u8) -> Signature
    requires { (48 ≤ strict) × (strict ≤ 56) × (length sorts.now ≤ 8) }
    ensures { result ≡ signature (map sort_of sorts.now) (strict - 48) (sort_of res) }
{
    Signature {
        sorts: Sorts {
            count: sorts.len() as u32,
            mask: sorts_mask(sorts),
        },
        strict: u32::from(strict - b'0'),
        result: sort(res),
    }
}

// A value in its place, where the array reaches so far.
fn put<T: Copy>(array: &mut [T], place: usize, value: T)
    ensures { array.new ≡ set array.old place value }
{
    if place < array.len() {
        array[place] = value;
    }
}

// Name and signature of a line of the right shape, the n-th counted from 0.
fn note(line: &[u8], n: usize, names: &mut [u64], heads: &mut [Signature])
    requires { wrong_field (pieces tab line.now) ≡ 0 }
    ensures names { names.new ≡ set names.old n (name_number (line_of (pieces tab line.now))) }
    ensures heads { heads.new ≡ set heads.old n (line_signature (line_of (pieces tab line.now))) }
{
    let tabs = tabs_of(line);
    let head = sign(
        line[tabs.name + 1],
        &line[tabs.strict + 1..tabs.sorts],
        line[tabs.sorts + 1],
    );
    put(names, n, fields::packed_name(&line[..tabs.name]));
    put(heads, n, head);
}

// LINE at a field of line n counted from 0.
fn misshapen(n: usize, field: u32) -> Refusal
    requires { n ≤ most_bytes }
    ensures { result ≡ misfit (n + 1) field }
{
    Refusal {
        number: Number::Line,
        line: n as u32 + 1,
        field,
    }
}

// "LINE: empty text is line 1 field 1. Otherwise lines in order. A last line without byte 10 gives field 0 before its fields are judged."
// On the way lines and body symbols are counted, which are the answer, and names and signatures go into the arrays, as far as these reach.
pub fn scan(text: &[u8], names: &mut [u64], heads: &mut [Signature]) -> Result<Counted, Refusal>
    requires { length text.now ≤ most_bytes }
    ensures { Scan text.now names.old names.new heads.old heads.new result }
{
    if text.is_empty() {
        return Err(misshapen(0, 1));
    }
    let mut functions = 0;
    let mut symbols = 0;
    for line in (Lines { rest: text }) {
        symbols += judge_line(line).map_err(|field| misshapen(functions, field))?;
        note(line, functions, names, heads);
        functions += 1;
    }
    if text[text.len() - 1] != fields::LINE_END {
        return Err(misshapen(functions, 0));
    }
    Ok(Counted { functions, symbols })
}

// "NAME: field 1 of the first line that repeats an earlier name."
pub fn repeats(names: &[u64]) -> Result<(), Refusal>
    requires { length names.now ≤ most_functions }
    ensures { result ≡ shown (judge_packed 1 [] names.now) }
{
    for (n, name) in names.iter().enumerate() {
        if names[..n].contains(name) {
            return Err(Refusal {
                number: Number::Name,
                line: n as u32 + 1,
                field: 1,
            });
        }
    }
    Ok(())
}
