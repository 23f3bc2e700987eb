// The abstract machine over one slice of work words: `execute` runs any code words from the initial term's entrance, and is proved to answer as the
// defined run does, at every step limit. Assumes nothing.
#![tactic(auto)]

ghost use Rattle.std.specs.Prelude.{◌≡◌, ◌≤◌, length, drop};
ghost use Rattle.meaning.specs.Basics.{written_over};
ghost use Rattle.meaning.specs.Numbers.{most_arguments, work_words};
ghost use Rattle.meaning.specs.Machine.{start, run};
ghost use Rattle.meaning.specs.Answers.{zero_words, ran};
ghost use Rattle.layout.specs.Decoding.{decode, first_entrance};
ghost use Rattle.layout.specs.Layout.{Good, holds};
ghost use Rattle.kinds.specs.Met.{Few};
ghost use Rattle.machine.specs.Ends.{answered, Begun};

use kinds::{Registers, Tally};
use meaning::{Answer, Number};

// One level, with the frame of the arguments.
fn begin(args: &[u32], work: &mut [u32])
    requires { (work_words ≤ length work.old) × (length args.now ≤ most_arguments) }
    ensures { Begun work.old work.new args.now }
{
    // A loop: a copy of a slice is a call of C's `memmove`, and the engine's archive asks for no name but what its arrays need.
    for n in 0..args.len() {
        work[layout::LEVEL_WORDS + layout::SLOTS + n] = args[n];
    }
    work[layout::LEVEL_WORDS + layout::LINK] = 0;
    work[layout::LEVEL_WORDS + layout::STRICT] = args.len() as u32;
    work[layout::LEVEL_WORDS + layout::SIZE] = args.len() as u32;
}

// The entrance of the initial term.
#[tactic(auto, unfolding(layout::specs::Decoding::first_entrance))]
fn first(code: &[u32]) -> u32
    ensures { result ≡ first_entrance code.now }
{
    let strict = code.get(layout::COUNT).copied().unwrap_or(0);
    u32::from(strict != 0)
}

// What a run answers that ends here with this number: "value is 0 unless HALT".
#[tactic(auto, unfolding(meaning::specs::Numbers::no))]
fn answer(s: Registers, number: Number) -> Answer
    requires { Few s.tally }
    ensures { result ≡ answered number s }
{
    let value = match number {
        Number::Halt if s.deep != 0 => s.held,
        _ => 0,
    };
    Answer {
        number: u32::from(number),
        value,
        line: 0,
        field: 0,
        steps: s.tally.steps as u32,
        rewrites: s.tally.rewrites as u32,
    }
}

// From address `begin` with one level, step by step, until the machine stops, meets the limit or cannot go on.
fn drive(code: &[u32], work: &mut [u32], begin: u32, limit: u32) -> Answer
    requires { Good work.old 1 1 0 }
    ensures { (result ≡ ran (run (decode code.now) limit (holds work.old begin 1 1 0 0) 0 0)) × (drop work_words work.new ≡ drop work_words work.old) }
{
    let mut s = Registers {
        held: 0,
        at: begin,
        env: 1,
        high: 1,
        deep: 0,
        tally: Tally::new(),
    };
    // No `for`: the tally counts the steps, and the loop ends by what the machine comes to. It begins with one level, so that only a step can stop it.
    loop {
        if u64::from(limit) <= s.tally.steps {
            return answer(s, Number::Fuel);
        }
        s = match s.step(code, work) {
            Ok(next) => next,
            Err(number) => return answer(s, number),
        };
        if s.high == 0 {
            return answer(s, Number::Halt);
        }
    }
}

#[tactic(auto, using(crate::proofs::Clearing::cleared))]
fn clear(work: &mut [u32])
    requires { work_words ≤ length work.old }
    ensures { work.new ≡ written_over zero_words work.old }
{
    let (used, _) = work.split_at_mut(meaning::WORK_WORDS);
    used.fill(0);
}

// The run of these code words: its answer, and the first 8,192 work words cleared.
pub fn execute(code: &[u32], args: &[u32], limit: u32, work: &mut [u32]) -> Answer
    requires { (work_words ≤ length work.old) × (length args.now ≤ most_arguments) }
    ensures { (result ≡ ran (run (decode code.now) limit (start (first_entrance code.now) args.now) 0 0)) × (work.new ≡ written_over zero_words work.old) }
{
    begin(args, work);
    let answer = drive(code, work, first(code), limit);
    clear(work);
    answer
}
