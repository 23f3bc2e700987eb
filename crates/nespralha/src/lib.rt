// The engine: Check, Translate and Run of document 01 for any bytes, any arguments, any limit and slices of any length.
// A contract is an equation with the definitions on meaning's page Answers, on every path; there is nothing that a caller has to test first. Assumes nothing.
#![tactic(auto)]

ghost use Rattle.std.specs.Prelude.{◌≡◌, ◌≤◌, length};
ghost use Rattle.meaning.specs.Answers.{check_answer, check_heads, translate_answer, translate_code, run_answer, run_code, run_work};
ghost use Rattle.answers.specs.Outcomes.{CheckOutcome, TranslateOutcome, RunOutcome};
ghost use Rattle.reading.specs.Reading.{Fit};

use meaning::{Accepted, Answer, Checked, Head, MOST_FUNCTIONS, Refusal};
use reading::TABLE_SYMBOLS;
use table::Table;

// A text that is short is read into a short table, which takes less time to make: a line takes eight bytes beside its symbols, a symbol two.
const SHORT_TEXT: usize = 128;

const SHORT_FUNCTIONS: usize = SHORT_TEXT / 8;

const SHORT_TABLE: usize = SHORT_TEXT / 2 + reading::INITIAL_ROOM;

type ShortTable = Table<SHORT_FUNCTIONS, SHORT_TABLE>;

type LongTable = Table<MOST_FUNCTIONS, TABLE_SYMBOLS>;

// What Check comes to, by a table that has room for the text. (`Fit` joins two values, the text and the table, so it is no invariant of one of them.)
fn check_in<const F: usize, const S: usize>(
    text: &[u8],
    table: &mut Table<F, S>,
    heads: &mut [Head],
) -> Result<Accepted, Refusal>
    requires { let t = table.old in Fit text.now t.names t.heads t.bodies t.symbols t.ends }
    ensures { CheckOutcome text.now heads.old result heads.new }
{
    let read = reading::read_table(text, table);
    answers::check_table(read, table.view(), &table.bodies, heads)
}

// The check of a text, with the heads of its functions.
pub fn check(text: &[u8], heads: &mut [Head]) -> Checked
    ensures { (result ≡ check_answer text.now (length heads.old)) × (heads.new ≡ check_heads text.now heads.old) }
{
    let found = if text.len() <= SHORT_TEXT {
        check_in(text, &mut ShortTable::new(), heads)
    } else {
        check_in(text, &mut LongTable::new(), heads)
    };
    Checked::of(found)
}

// What Translate comes to, by a table that has room for the text.
fn translate_in<const F: usize, const S: usize>(
    text: &[u8],
    table: &mut Table<F, S>,
    code: &mut [u32],
) -> Result<Accepted, Refusal>
    requires { let t = table.old in Fit text.now t.names t.heads t.bodies t.symbols t.ends }
    ensures { TranslateOutcome text.now code.old result code.new }
{
    let read = reading::read_table(text, table);
    answers::translate_table(read, table.view(), code)
}

// The code words of a text.
pub fn translate(text: &[u8], code: &mut [u32]) -> Checked
    ensures answer { result ≡ translate_answer text.now (length code.old) }
    ensures code { code.new ≡ translate_code text.now code.old }
{
    let found = if text.len() <= SHORT_TEXT {
        translate_in(text, &mut ShortTable::new(), code)
    } else {
        translate_in(text, &mut LongTable::new(), code)
    };
    Checked::of(found)
}

// What Run comes to, by a table that has room for the text, with all that C's function is lent.
fn run_in<const F: usize, const S: usize>(
    text: &[u8],
    table: &mut Table<F, S>,
    args: &[u32],
    limit: u32,
    code: &mut [u32],
    work: &mut [u32],
) -> Result<Answer, Refusal>
    requires { let t = table.old in Fit text.now t.names t.heads t.bodies t.symbols t.ends }
    ensures { RunOutcome text.now args.now limit code.old work.old result code.new work.new }
{
    let read = reading::read_table(text, table);
    answers::run_table(read, table.view(), args, limit, code, work)
}

// The run of a text's entry at these arguments.
pub fn run(text: &[u8], args: &[u32], limit: u32, code: &mut [u32], work: &mut [u32]) -> Answer
    ensures answer { result ≡ run_answer text.now args.now limit (length code.old) (length work.old) }
    ensures code { code.new ≡ run_code text.now args.now code.old (length work.old) }
    ensures work { work.new ≡ run_work text.now args.now (length code.old) work.old }
{
    let found = if text.len() <= SHORT_TEXT {
        run_in(text, &mut ShortTable::new(), args, limit, code, work)
    } else {
        run_in(text, &mut LongTable::new(), args, limit, code, work)
    };
    found.unwrap_or_else(Answer::from)
}
