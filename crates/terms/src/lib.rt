// Terms over the table of symbols: a term is read by reading its symbol, then as many argument terms as it takes, each symbol judged at its own
// place; where each term ends goes into a lent table. Each symbol is looked at once. Assumes nothing.
#![tactic(auto)]

ghost use Rattle.std.specs.Prelude.{◌≡◌, ◌+◌, ◌*◌, ◌/◌, ◌%◌, ◌≤◌, ◌<◌, length, MatchResult};
ghost use Rattle.meaning.specs.Arithmetic.{modulus};
ghost use Rattle.terms.specs.Terms.{operands, gives, if_given, takes_by, args_by, Told, Tolds, Whole, Within};

use meaning::Wrong;
use table::{Signature, Sort, Sorts, Symbol};
use word::Operation;

// Rows of arguments that symbols take.
const NONE: Sorts = Sorts { count: 0, mask: 0 };

const ONE_YES_NO: Sorts = Sorts { count: 1, mask: 1 };

const TWO_NUMBERS: Sorts = Sorts { count: 2, mask: 0 };

const TWO_YES_NO: Sorts = Sorts { count: 2, mask: 3 };

// What is wrong, and where.
#[derive(Clone, Copy)]
pub struct Fault {
    pub wrong: Wrong,
    pub at: usize,
}

// What an operation of two values takes,
#[tactic(auto, unfolding(crate::specs::Terms::operands))]
fn operands(operation: Operation) -> Sorts
    ensures { result ≡ operands operation }
{
    match operation {
        Operation::And | Operation::Or => TWO_YES_NO,
        _ => TWO_NUMBERS,
    }
}

// and what it gives.
#[tactic(auto, unfolding(crate::specs::Terms::gives))]
fn gives(operation: Operation) -> Sort
    ensures { result ≡ gives operation }
{
    match operation {
        Operation::Plus
        | Operation::Minus
        | Operation::Times
        | Operation::Divided
        | Operation::LeftOver => Sort::Number,
        Operation::Same | Operation::Below | Operation::And | Operation::Or => Sort::YesNo,
    }
}

// What a symbol takes, if what it gives is what is expected.
#[tactic(auto, unfolding(crate::specs::Terms::if_given))]
fn if_given(expected: Sort, given: Sort, sorts: Sorts) -> Result<Sorts, Wrong>
    ensures { result ≡ if_given expected given sorts }
{
    if given != expected {
        return Err(Wrong::OtherSort);
    }
    Ok(sorts)
}

// What a body is read from: its symbols, the signatures of all functions, and the signature of the function whose body it is.
#[derive(Clone, Copy)]
pub struct Body<'a> {
    pub symbols: &'a [Symbol],
    pub heads: &'a [Signature],
    pub own: Signature,
}

impl Body<'_> {
    // What a symbol takes where a sort is expected.
    #[tactic(auto, unfolding(crate::specs::Terms::takes_by, crate::specs::Terms::argument_by, crate::specs::Terms::function_by))]
    fn judge(self, sort: Sort, symbol: Symbol) -> Result<Sorts, Wrong>
        ensures { result ≡ takes_by self.entry.heads.now self.entry.own sort symbol }
    {
        match symbol {
            Symbol::Unknown => Err(Wrong::UnknownSymbol),
            Symbol::Argument(i) => {
                let given = self.own.sorts.get(i).ok_or(Wrong::LackingArgument)?;
                if_given(sort, given, NONE)
            }
            Symbol::Constant(given, _) => if_given(sort, given, NONE),
            Symbol::Operation(operation) => if_given(sort, gives(operation), operands(operation)),
            Symbol::Not => if_given(sort, Sort::YesNo, ONE_YES_NO),
            // A yes/no, then two terms of the sort expected.
            Symbol::Cond => Ok(Sorts {
                count: 3,
                mask: 1 + 6 * u32::from(sort),
            }),
            Symbol::Function(f) => {
                let head = self.heads.get(f as usize).ok_or(Wrong::UnknownSymbol)?;
                if_given(sort, head.result, head.sorts)
            }
        }
    }

    // What the symbol at `at` takes. Symbols may stand `depth` deep; at depth 33 none is looked at.
    #[tactic(auto, unfolding(crate::specs::Terms::args_by, crate::specs::Terms::placed))]
    fn args_at(self, at: usize, depth: usize, sort: Sort) -> Result<Sorts, Fault>
        ensures args { result ≡ args_by self.entry.symbols.now self.entry.heads.now self.entry.own at depth sort }
        ensures there { MatchResult result (λ _. (at < length self.entry.symbols.now) × (0 < depth)) (λ f. f.at ≤ length self.entry.symbols.now) }
    {
        let Some(symbol) = self.symbols.get(at) else {
            return Err(Fault {
                wrong: Wrong::EarlyEnd,
                at: self.symbols.len(),
            });
        };
        if depth == 0 {
            return Err(Fault {
                wrong: Wrong::TooDeep,
                at,
            });
        }
        self.judge(sort, *symbol)
            .map_err(|wrong| Fault { wrong, at })
    }

    // "Reading a term means reading its symbol, then as many argument terms as it takes." One without arguments costs no call.
    #[cycle(reading)]
    fn read_term(
        self,
        at: usize,
        depth: usize,
        sort: Sort,
        ends: &mut [u32],
    ) -> Result<usize, Fault>
        requires { (length self.symbols.now ≤ length ends.old) × (length self.symbols.now < modulus) }
        ensures read { Told self.entry.symbols.now self.entry.heads.now self.entry.own at depth sort ends.old ends.new result }
        ensures within { Within (length self.entry.symbols.now) (at + 1) result }
    {
        let args = self.args_at(at, depth, sort)?;
        let next = if args.count == 0 {
            at + 1
        } else {
            self.read_args(at + 1, depth - 1, args, ends)?
        };
        ends[at] = next as u32;
        Ok(next)
    }

    // One term for each of the arguments. The mask is halved: a shift by the number of the turn would ask that there are at most 32.
    #[cycle(reading)]
    fn read_args(
        self,
        from: usize,
        depth: usize,
        args: Sorts,
        ends: &mut [u32],
    ) -> Result<usize, Fault>
        requires { (length self.symbols.now ≤ length ends.old) × (length self.symbols.now < modulus) × (from ≤ length self.symbols.now) }
        ensures read { Tolds self.entry.symbols.now self.entry.heads.now self.entry.own from depth args.count args.mask ends.old ends.new result }
        ensures within { Within (length self.entry.symbols.now) from result }
    {
        let mut at = from;
        let mut mask = args.mask;
        for _ in 0..args.count {
            at = self.read_term(at, depth, Sort::lowest(mask), ends)?;
            mask /= 2;
        }
        Ok(at)
    }

    // The body is one term of its sort and nothing after it: the symbols from `from` on. It is read as a row of one, so that reading a term has one
    // caller: the compiler then puts it into the loop, and a symbol without arguments costs no call.
    pub fn read(self, from: usize, ends: &mut [u32]) -> Result<usize, Fault>
        requires { (length self.symbols.now ≤ length ends.old) × (length self.symbols.now < modulus) × (from ≤ length self.symbols.now) }
        ensures read { Whole self.entry.symbols.now self.entry.heads.now self.entry.own from ends.old ends.new result }
        ensures within { Within (length self.entry.symbols.now) from result }
    {
        let args = Sorts {
            count: 1,
            mask: u32::from(self.own.result),
        };
        let next = self.read_args(from, meaning::MOST_DEPTH, args, ends)?;
        if next < self.symbols.len() {
            return Err(Fault {
                wrong: Wrong::LeftOver,
                at: next,
            });
        }
        Ok(next)
    }
}
