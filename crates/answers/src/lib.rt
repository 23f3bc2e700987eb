// What Check, Translate and Run come to once a text is read, and is refused or stands in the table: room for heads and code, arguments against the entry's
// signature, the run. The contracts speak of every text that reading may have answered of (`IsRead`). Assumes nothing.
#![tactic(auto)]

ghost use Rattle.std.specs.Prelude.{◌≡◌, List, ℕ, ◌≤◌, length, IfOk};
ghost use Rattle.table.specs.declared.Symbol.{Symbol};
ghost use Rattle.answers.specs.Fitting.{fits_sort, fits_signature, masked};
ghost use Rattle.answers.specs.Outcomes.{IsRead, CheckOutcome, TranslateOutcome, RunOutcome};

use meaning::{
    Accepted, Answer, Head, INSTRUCTION_WORDS, MOST_ARGUMENTS, Number, Refusal, WORK_WORDS,
};
use table::{Signature, Sort, View};

// "ROOM: a lent slice is too short"; "ARGS: wrong number of arguments, or a yes/no above 1". Neither names a place.
const NO_ROOM: Refusal = Refusal {
    number: Number::Room,
    line: 0,
    field: 0,
};

const NO_FIT: Refusal = Refusal {
    number: Number::Args,
    line: 0,
    field: 0,
};

// The heads of the functions in the table.
pub fn check_table(
    read: Result<Accepted, Refusal>,
    table: View,
    bodies: &[u32],
    heads: &mut [Head],
) -> Result<Accepted, Refusal>
    requires { IfOk read (λ accepted. (accepted.functions ≤ length table.heads.now) × (accepted.functions ≤ length bodies.now)) }
    ensures { let t = table.entry in
        (text : List ℕ) (symbols : List Symbol) (ends : List ℕ) → IsRead text read symbols ends t.heads.now bodies.now → CheckOutcome text heads.old result heads.new }
{
    let accepted = read?;
    if heads.len() < accepted.functions {
        return Err(NO_ROOM);
    }
    heads::put_heads(heads, &table.heads[..accepted.functions], bodies);
    Ok(accepted)
}

// The code words of the program in the table.
pub fn translate_table(
    read: Result<Accepted, Refusal>,
    table: View,
    code: &mut [u32],
) -> Result<Accepted, Refusal>
    ensures { let t = table.entry in
        (text bodies : List ℕ) → IsRead text read t.symbols.now t.ends.now t.heads.now bodies → TranslateOutcome text code.old result code.new }
{
    let accepted = read?;
    if code.len() / INSTRUCTION_WORDS < accepted.instructions {
        return Err(NO_ROOM);
    }
    coding::emit(table, accepted.instructions, code);
    Ok(accepted)
}

// Whether a value fits its sort: a yes/no is 1 or 0.
#[tactic(auto, unfolding(crate::specs::Fitting::fits_sort))]
fn value_fits(sort: Sort, v: u32) -> bool
    ensures { result ≡ fits_sort sort v }
{
    match sort {
        Sort::Number => true,
        Sort::YesNo => v <= 1,
    }
}

// Whether the values fit sorts that are a mask, the first in the lowest bit.
#[tactic(auto, using(crate::proofs::Laws::masked_end, crate::proofs::Laws::masked_step))]
fn values_fit(mut mask: u32, args: &[u32]) -> bool
    ensures { result ≡ masked mask args.now }
{
    for v in args {
        if !value_fits(Sort::lowest(mask), *v) {
            return false;
        }
        mask /= 2;
    }
    true
}

// Whether the values fit a function of this signature.
#[tactic(auto, unfolding(crate::specs::Fitting::fits_signature))]
fn arguments_fit(signature: Signature, args: &[u32]) -> bool
    ensures { result ≡ fits_signature signature args.now }
{
    args.len() == signature.sorts.count as usize && values_fit(signature.sorts.mask, args)
}

// The run of the program in the table, with all that C's function is lent.
pub fn run_table(
    read: Result<Accepted, Refusal>,
    table: View,
    args: &[u32],
    limit: u32,
    code: &mut [u32],
    work: &mut [u32],
) -> Result<Answer, Refusal>
    ensures { let t = table.entry in
        (text bodies : List ℕ) → IsRead text read t.symbols.now t.ends.now t.heads.now bodies →
        RunOutcome text args.now limit code.old work.old result code.new work.new }
{
    let accepted = read?;
    let Some(entry) = table.heads.first() else {
        return Err(NO_FIT);
    };
    if !arguments_fit(*entry, args) {
        return Err(NO_FIT);
    }
    if code.len() / INSTRUCTION_WORDS < accepted.instructions || work.len() < WORK_WORDS {
        return Err(NO_ROOM);
    }
    // Never met: what fits an entry is eight arguments at most.
    if MOST_ARGUMENTS < args.len() {
        return Err(NO_FIT);
    }
    coding::emit(table, accepted.instructions, code);
    let end = INSTRUCTION_WORDS * accepted.instructions;
    Ok(machine::execute(&code[..end], args, limit, work))
}
