// What a caller of the engine sees: heads, answers, and document 01's numbers and limits by name.
// What they mean stands in specs/, page by page in document 01's order. Assumes nothing.
#![tactic(auto)]

ghost use Rattle.std.specs.Prelude.{◌≡◌, ◌<◌, ◌^◌, IfOk};
ghost use Rattle.meaning.specs.Terms.{wrong_number};
ghost use Rattle.meaning.specs.Said.{said, number_word, checked_refusal, answered_refusal, checked_result};

// One function of an accepted text: how many arguments it takes, how many of them are strict, its result's sort (n 0, b 1), and the address of its body's first symbol.
#[repr(C)]
#[derive(Clone, Copy)]
pub struct Head {
    pub args: u32,
    pub strict: u32,
    pub result: u32,
    pub body: u32,
}

// What Check and Translate answer.
#[repr(C)]
#[derive(Clone, Copy)]
pub struct Checked {
    pub number: u32,
    pub line: u32,
    pub field: u32,
    pub functions: u32,
    pub instructions: u32,
}

// What Run answers.
#[repr(C)]
#[derive(Clone, Copy)]
pub struct Answer {
    pub number: u32,
    pub value: u32,
    pub line: u32,
    pub field: u32,
    pub steps: u32,
    pub rewrites: u32,
}

// What is wrong at a field of a body: no known symbol, an argument the function lacks, a symbol of another sort than its place takes, a body that ends
// early, a field left over, a symbol at depth 33. specs/Terms.antt gives the number for each.
#[derive(Clone, Copy)]
pub enum Wrong {
    UnknownSymbol,
    LackingArgument,
    OtherSort,
    EarlyEnd,
    LeftOver,
    TooDeep,
}

// The number that the engine answers for it.
impl From<Wrong> for Number {
    ghost from_gives = { λ wrong n. n ≡ said (wrong_number wrong) };

    #[tactic(auto, unfolding(crate::specs::Terms::wrong_number))]
    fn from(wrong: Wrong) -> Number {
        match wrong {
            Wrong::UnknownSymbol => Number::Unknown,
            Wrong::LackingArgument => Number::Unknown,
            Wrong::OtherSort => Number::Sort,
            Wrong::EarlyEnd => Number::Short,
            Wrong::LeftOver => Number::Term,
            Wrong::TooDeep => Number::Nest,
        }
    }
}

// What the engine answers with, numbered from 0 in this order; specs/Numbers.antt says when each is given.
#[derive(Clone, Copy, PartialEq, Eq)]
pub enum Number {
    Halt,
    Long,
    Line,
    Count,
    Name,
    Term,
    Nest,
    Args,
    Room,
    Fuel,
    Deep,
    Stuck,
    Zero,
    Unknown,
    Sort,
    Short,
}

impl From<Number> for u32 {
    ghost from_gives = { λ n w. w ≡ number_word n };

    fn from(n: Number) -> u32 {
        n as u32
    }
}

// Why a text is refused, and where: line and field count from 1, and are 0 where none is named.
#[derive(Clone, Copy)]
pub struct Refusal {
    pub number: Number,
    pub line: u32,
    pub field: u32,
}

impl From<Refusal> for Checked {
    ghost from_gives = { λ r c. c ≡ checked_refusal r };

    fn from(r: Refusal) -> Checked {
        Checked {
            number: u32::from(r.number),
            line: r.line,
            field: r.field,
            functions: 0,
            instructions: 0,
        }
    }
}

impl From<Refusal> for Answer {
    ghost from_gives = { λ r a. a ≡ answered_refusal r };

    fn from(r: Refusal) -> Answer {
        Answer {
            number: u32::from(r.number),
            value: 0,
            line: r.line,
            field: r.field,
            steps: 0,
            rewrites: 0,
        }
    }
}

// What an accepted text has: functions, and instructions once it is translated.
#[derive(Clone, Copy)]
pub struct Accepted {
    pub functions: usize,
    pub instructions: usize,
}

impl Checked {
    // What Check and Translate answer for what a text comes to. What an accepted text has are words.
    pub fn of(found: Result<Accepted, Refusal>) -> Checked
        requires { IfOk found (λ a. (a.functions < 2 ^ 32) × (a.instructions < 2 ^ 32)) }
        ensures { result ≡ checked_result found }
    {
        match found {
            Ok(accepted) => Checked {
                number: u32::from(Number::Halt),
                line: 0,
                field: 0,
                functions: accepted.functions as u32,
                instructions: accepted.instructions as u32,
            },
            Err(refusal) => Checked::from(refusal),
        }
    }
}

// The limits.
pub const MOST_BYTES: usize = 16384;

pub const MOST_FUNCTIONS: usize = 64;

pub const MOST_SYMBOLS: usize = 1024;

pub const MOST_DEPTH: usize = 32;

pub const MOST_ARGUMENTS: usize = 8;

pub const MOST_HEIGHT: usize = 512;

pub const INSTRUCTION_WORDS: usize = 12;

pub const WORK_WORDS: usize = 8192;

// The most code words that a text needs: its symbols, those of the initial term, and RET.
pub const MOST_CODE_WORDS: usize = INSTRUCTION_WORDS * (MOST_SYMBOLS + (1 + MOST_ARGUMENTS) + 1);
