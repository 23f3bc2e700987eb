// Where a term is entered and what follows it, found in the table of symbols. Assumes nothing.
#![tactic(auto)]

ghost use Rattle.std.specs.Prelude.{◌≡◌, ◌≤◌, length};
ghost use Rattle.entrances.specs.View.{leads_of};
ghost use Rattle.entrances.specs.Entrances.{most_words, Entrance, Follower, Passed, Entrances};

use meaning::{MOST_ARGUMENTS, MOST_SYMBOLS};
use table::{Symbol, View};

// The most symbols of a table: those of the initial term and of the bodies.
pub const MOST_WORDS: usize = 1 + MOST_ARGUMENTS + MOST_SYMBOLS;

// How many arguments of a symbol are worked out before it: both or the one of an operation, the condition of a `cond`, a function's strict ones.
#[tactic(auto, unfolding(crate::specs::View::leads_of))]
pub fn leads(table: &View, symbol: Symbol) -> u32
    ensures { result ≡ leads_of table.now.heads.now symbol }
{
    match symbol {
        Symbol::Unknown | Symbol::Argument(_) | Symbol::Constant(..) => 0,
        Symbol::Operation(_) => 2,
        Symbol::Not | Symbol::Cond => 1,
        Symbol::Function(f) => table
            .heads
            .get(f as usize)
            .map_or(0, |signature| signature.strict),
    }
}

// The address past the first `count` terms of a row that begins at `at`.
pub fn pass(table: &View, mut at: u32, count: u32) -> u32
    ensures { Passed table.now.ends.now at count result }
{
    for _ in 0..count {
        at = table.end(at);
    }
    at
}

// The symbols of a table, as many as a table has at most, in which terms are found by their addresses.
#[derive(Clone, Copy)]
pub struct Symbols<'a> {
    pub table: View<'a>,
    ghost few: { length table.symbols.now ≤ most_words },
}

// A row of terms from `at` to `end`: `lead` of them are worked out before the symbol at `home`, the others go on at `others`.
#[derive(Clone, Copy)]
pub struct Row {
    pub at: u32,
    pub end: u32,
    pub lead: u32,
    pub home: u32,
    pub others: u32,
}

impl Symbols<'_> {
    // "The entrance of a term is its own address for an argument, a constant, or a call with strict count 0; else the entrance of its first argument."
    // Found by recursion down the first argument, nesting falling: the form that document 01 names.
    pub fn entrance(&self, at: u32, depth: usize) -> u32
        ensures { Entrance self.now.table.heads.now self.now.table.symbols.now at depth result }
    {
        if depth == 0 {
            return at;
        }
        if leads(&self.table, self.table.symbol(at)) == 0 {
            return at;
        }
        self.entrance(at + 1, depth - 1)
    }

    // What follows the first term of a row, the next one standing at `row.at`.
    #[tactic(auto, using(crate::proofs::Laws::follower_others, crate::proofs::Laws::follower_home, crate::proofs::Laws::follower_next))]
    pub fn follower(&self, row: Row, depth: usize) -> u32
        ensures { Follower self.now.table.heads.now self.now.table.symbols.now row.lead row.at row.home row.others depth result }
    {
        match row.lead {
            0 => row.others,
            1 => row.home,
            _ => self.entrance(row.at, depth),
        }
    }

    // The entrances of a row of terms from `at` to `end`, as many as there is room for.
    pub fn put_entrances(&self, mut at: u32, end: u32, depth: usize, out: &mut [u32])
        ensures { Entrances self.now.table.heads.now self.now.table.symbols.now self.now.table.ends.now at end depth 0 out.old out.new }
    {
        for entrance in out.iter_mut() {
            if end <= at {
                return;
            }
            *entrance = self.entrance(at, depth);
            at = self.table.end(at);
        }
    }
}
