// The table that Check's core fills and Translate's core reads: the types of what stands in it, and the table. What it holds of a program is defined in
// specs/. Assumes nothing.
#![tactic(auto)]

ghost use Rattle.std.specs.Prelude.{◌≡◌, ◌%◌, get_or, replicate};
ghost use Rattle.table.specs.declared.Symbol.TheVariants.{Unknown};
ghost use Rattle.table.specs.Symbols.{sort_of_bit, sort_at, sort_word, no_head};

use word::Operation;

// "n (number) or b (yes/no)"
#[derive(Clone, Copy, PartialEq, Eq)]
pub enum Sort {
    Number,
    YesNo,
}

impl Sort {
    // The sort that the lowest bit of a mask says.
    pub fn lowest(mask: u32) -> Self
        ensures { result ≡ sort_of_bit (mask % 2) }
    {
        match mask % 2 {
            0 => Sort::Number,
            _ => Sort::YesNo,
        }
    }
}

// "n 0, b 1"
impl From<Sort> for u32 {
    ghost from_gives = { λ s n. n ≡ sort_word s };

    fn from(sort: Sort) -> u32 {
        sort as u32
    }
}

// A row of sorts: how many, and a mask in which a bit is set for each yes/no, the first in the lowest bit.
#[derive(Clone, Copy)]
pub struct Sorts {
    pub count: u32,
    pub mask: u32,
}

impl Sorts {
    // The i-th, counted from 0.
    pub fn get(self, i: u32) -> Option<Sort>
        ensures { result ≡ sort_at self i }
    {
        if self.count <= i {
            return None;
        }
        Some(Sort::lowest(self.mask.checked_shr(i)?))
    }
}

// What a function takes and gives, and how many of its arguments are strict.
#[derive(Clone, Copy)]
pub struct Signature {
    pub sorts: Sorts,
    pub strict: u32,
    pub result: Sort,
}

// A symbol of a body: an argument and a function by their numbers, a constant by sort and value.
#[derive(Clone, Copy)]
pub enum Symbol {
    Unknown,
    Argument(u32),
    Constant(Sort, u32),
    Operation(Operation),
    Not,
    Cond,
    Function(u32),
}

// Room for F functions and S symbols: of each function its name as one number, its signature and the address of its body; of each symbol what it is, and
// the address after the term that begins with it: an array beside, since reading a term writes addresses alone, and its contract need not say what stays.
#[derive(Drop)]
pub struct Table<const F: usize, const S: usize> {
    pub names: [u64; F],
    pub heads: [Signature; F],
    pub bodies: [u32; F],
    pub symbols: [Symbol; S],
    pub ends: [u32; S],
}

impl<const F: usize, const S: usize> Table<F, S> {
    // Nothing read yet.
    pub fn new() -> Self
        ensures functions { (result.names ≡ replicate F 0) × (result.bodies ≡ replicate F 0) }
        ensures heads { result.heads ≡ replicate F no_head }
        ensures symbols { (result.symbols ≡ replicate S Unknown) × (result.ends ≡ replicate S 0) }
    {
        let none = Signature {
            sorts: Sorts { count: 0, mask: 0 },
            strict: 0,
            result: Sort::Number,
        };
        Table {
            names: [0; F],
            heads: [none; F],
            bodies: [0; F],
            symbols: [Symbol::Unknown; S],
            ends: [0; S],
        }
    }

    // The table as Translate reads it.
    pub fn view(&self) -> View<'_>
        ensures functions { result.heads.now ≡ self.now.heads }
        ensures symbols { (result.symbols.now ≡ self.now.symbols) × (result.ends.now ≡ self.now.ends) }
    {
        View {
            heads: &self.heads,
            symbols: &self.symbols,
            ends: &self.ends,
        }
    }
}

// A table's signatures and symbols, to read.
#[derive(Clone, Copy)]
pub struct View<'a> {
    pub heads: &'a [Signature],
    pub symbols: &'a [Symbol],
    pub ends: &'a [u32],
}

// Of the symbol at an address: what it is, and the address after the term that begins with it; past the table it is unknown, and the address 0.
impl View<'_> {
    pub fn symbol(&self, at: u32) -> Symbol
        ensures { result ≡ get_or self.now.symbols.now at Unknown }
    {
        self.symbols
            .get(at as usize)
            .copied()
            .unwrap_or(Symbol::Unknown)
    }

    pub fn end(&self, at: u32) -> u32
        ensures { result ≡ get_or self.now.ends.now at 0 }
    {
        word_at(self.ends, at)
    }
}

// A word of a slice, 0 past its end.
pub fn word_at(words: &[u32], at: u32) -> u32
    ensures { result ≡ get_or words.now at 0 }
{
    words.get(at as usize).copied().unwrap_or(0)
}
