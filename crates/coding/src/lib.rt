// Translate's core: from the table of symbols to code words. Assumes nothing.
#![tactic(auto)]

ghost use Rattle.std.specs.Prelude.{◌≡◌, ◌+◌, ◌*◌, ◌≤◌, ◌<◌, length, get_or};
ghost use Rattle.meaning.specs.Numbers.{instruction_words};
ghost use Rattle.table.specs.declared.Symbol.TheVariants.{Unknown};
ghost use Rattle.entrances.specs.View.{leads_of, strict_at};
ghost use Rattle.entrances.specs.Entrances.{written_at};
ghost use Rattle.coding.specs.Coding.{executed, others_of, Selects, Calls, Stored, Emitted, EmittedRow, EmittedAll, Translated};

use entrances::{MOST_WORDS, Row, Symbols, leads, pass};
use layout::{CALL, ENTRANCES, EVAL, EXEC, RET, SELECT};
use meaning::{INSTRUCTION_WORDS, MOST_DEPTH, MOST_FUNCTIONS};
use table::{Symbol, View, word_at};
use word::NEGATION;

// EXEC's operations: "0 constant, then 1 to 10 for `+ - * / % = < & | !`". A number, as the code word that a caller in C holds.
const CONSTANT: u32 = 0;

type Instruction = [u32; INSTRUCTION_WORDS];

// The instruction of the symbol at `at`, stored at that address.
fn store(code: &mut [u32], at: usize, ins: Instruction)
    requires { instruction_words * at + instruction_words ≤ length code.old }
    ensures { code.new ≡ written_at (instruction_words * at) ins code.old }
{
    let start = INSTRUCTION_WORDS * at;
    code[start..start + INSTRUCTION_WORDS].copy_from_slice(&ins);
}

// EXEC of a constant or of an operation; only a constant has a value.
#[tactic(auto, unfolding(meaning::specs::Code::twelve))]
fn execute(operation: u32, value: u32, next: u32) -> Instruction
    ensures { result ≡ executed operation value next }
{
    [EXEC, next, operation, value, 0, 0, 0, 0, 0, 0, 0, 0]
}

// The symbols of a program, to be coded, and the entrances of its bodies.
#[derive(Clone, Copy)]
struct Emitter<'a> {
    symbols: Symbols<'a>,
    bodies: &'a [u32],
}

impl Emitter<'_> {
    // "SELECT (3): next is 0; entrance of the yes branch, of the no branch." The condition stands at `at`.
    fn select(&self, at: u32, depth: usize) -> Instruction
        ensures { let t = self.now.symbols.table in Selects t.heads.now t.symbols.now t.ends.now at depth result }
    {
        let yes = self.symbols.table.end(at);
        let no = self.symbols.table.end(yes);
        let on_yes = self.symbols.entrance(yes, depth);
        let on_no = self.symbols.entrance(no, depth);
        [SELECT, 0, on_yes, on_no, 0, 0, 0, 0, 0, 0, 0, 0]
    }

    // "CALL (4): entrance of the body, strict count, entrances of the waiting arguments": of the function f, called at `at`.
    fn call(&self, f: u32, at: u32, next: u32, depth: usize) -> Instruction
        requires { at < length self.now.symbols.table.symbols.now }
        ensures { let t = self.now.symbols.table in
            Calls t.heads.now t.symbols.now t.ends.now (get_or self.now.bodies.now f 0) (strict_at t.heads.now f) (at + 1) (get_or t.ends.now at 0) next depth result }
    {
        let body = word_at(self.bodies, f);
        let strict = leads(&self.symbols.table, Symbol::Function(f));
        let first = pass(&self.symbols.table, at + 1, strict);
        let mut ins = [CALL, next, body, strict, 0, 0, 0, 0, 0, 0, 0, 0];
        self.symbols.put_entrances(
            first,
            self.symbols.table.end(at),
            depth,
            &mut ins[ENTRANCES..],
        );
        ins
    }

    // The one instruction of the symbol at `at`, stored at that address; `next` is what follows its term. Each kind is stored for itself: an array that
    // any of them may be, stored once, makes translating up to 6 % slower.
    fn put_instruction(&self, at: u32, next: u32, depth: usize, code: &mut [u32])
        requires { (instruction_words * length self.now.symbols.table.symbols.now ≤ length code.old) × (at < length self.now.symbols.table.symbols.now) }
        ensures { let t = self.now.symbols.table in Stored t.heads.now self.now.bodies.now t.symbols.now t.ends.now at next depth code.old code.new }
    {
        let place = at as usize;
        match self.symbols.table.symbol(at) {
            // There is none in an accepted text.
            Symbol::Unknown => store(code, place, [0; INSTRUCTION_WORDS]),
            // EVAL's argument positions count from 1.
            Symbol::Argument(i) => store(
                code,
                place,
                [EVAL, next, i.saturating_add(1), 0, 0, 0, 0, 0, 0, 0, 0, 0],
            ),
            Symbol::Constant(_, value) => store(code, place, execute(CONSTANT, value, next)),
            Symbol::Operation(operation) => store(
                code,
                place,
                execute(u32::from(operation), 0, next),
            ),
            Symbol::Not => store(code, place, execute(NEGATION, 0, next)),
            Symbol::Cond => store(code, place, self.select(at + 1, depth)),
            Symbol::Function(f) => store(code, place, self.call(f, at, next, depth)),
        }
    }

    // The row of the arguments of the symbol at `home`, `next` being what follows its term: RET follows a waiting argument. RET stands past all symbols.
    #[tactic(auto, unfolding(crate::specs::Coding::others_of))]
    fn arguments(&self, home: u32, next: u32) -> Row
        requires { home < length self.now.symbols.table.symbols.now }
        ensures { let t = self.now.symbols.table in result ≡ record {
          at = home + 1;
          end = get_or t.ends.now home 0;
          lead = leads_of t.heads.now (get_or t.symbols.now home Unknown);
          home = home;
          others = others_of (get_or t.symbols.now home Unknown) next (length t.symbols.now);
        } }
    {
        let table = self.symbols.table;
        let symbol = table.symbol(home);
        let others = match symbol {
            Symbol::Function(_) => table.symbols.len() as u32,
            _ => next,
        };
        Row {
            at: home + 1,
            end: table.end(home),
            lead: leads(&table, symbol),
            home,
            others,
        }
    }

    // The code of the term at `at`, `next` being what follows it.
    #[cycle(emitting)]
    fn term(&self, at: u32, next: u32, depth: usize, code: &mut [u32])
        requires { instruction_words * length self.now.symbols.table.symbols.now ≤ length code.old }
        ensures { let t = self.now.symbols.table in Emitted t.heads.now self.now.bodies.now t.symbols.now t.ends.now at next depth code.old code.new }
    {
        if depth == 0 || self.symbols.table.symbols.len() <= at as usize {
            return;
        }
        self.put_instruction(at, next, depth, code);
        // Most symbols have no arguments, and a call costs more than the test: without it translating is up to 9 % slower.
        if self.symbols.table.end(at) <= at + 1 {
            return;
        }
        self.row(self.arguments(at, next), depth - 1, code);
    }

    // The code of a row of terms. The loop goes from term to term, as far as each reaches, which no `for` says.
    #[cycle(emitting)]
    fn row(&self, mut row: Row, depth: usize, code: &mut [u32])
        requires { instruction_words * length self.now.symbols.table.symbols.now ≤ length code.old }
        ensures { let t = self.now.symbols.table in
            EmittedRow t.heads.now self.now.bodies.now t.symbols.now t.ends.now row.at row.end row.lead row.home row.others depth code.old code.new }
    {
        while row.at < row.end {
            let at = row.at;
            row.at = self.symbols.table.end(at);
            if row.at <= at {
                return;
            }
            self.term(at, self.symbols.follower(row, depth), depth, code);
            row.lead = row.lead.saturating_sub(1);
        }
    }
}

// "the initial term first, then the bodies by line": one row of terms, each followed by RET, which stands past them. The symbols are those of a
// program and no more; the bodies begin where the initial term ends.
fn emit_all(symbols: Symbols, code: &mut [u32])
    requires { instruction_words * length symbols.table.symbols.now + instruction_words ≤ length code.old }
    ensures { let t = symbols.entry.table in EmittedAll t.heads.now t.symbols.now t.ends.now code.old code.new }
{
    let ret = symbols.table.symbols.len() as u32;
    let mut bodies = [0; MOST_FUNCTIONS];
    symbols.put_entrances(symbols.table.end(0), ret, MOST_DEPTH, &mut bodies);
    let all = Row {
        at: 0,
        end: ret,
        lead: 0,
        home: 0,
        others: ret,
    };
    Emitter {
        symbols,
        bodies: &bodies,
    }
    .row(all, MOST_DEPTH, code);
    store(
        code,
        symbols.table.symbols.len(),
        [RET, 0, 0, 0, 0, 0, 0, 0, 0, 0, 0, 0],
    );
}

// The code of the program whose table is given, `instructions` of them.
pub fn emit(table: View, instructions: usize, code: &mut [u32])
    ensures { let t = table.entry in Translated t.symbols.now t.ends.now t.heads.now instructions code.old code.new }
{
    let Some(ret) = instructions.checked_sub(1) else {
        return;
    };
    let Some(symbols) = table.symbols.get(..ret) else {
        return;
    };
    if MOST_WORDS < ret || code.len() / INSTRUCTION_WORDS < instructions {
        return;
    }
    emit_all(
        Symbols {
            table: View { symbols, ..table },
        },
        code,
    );
}
