// The arithmetic page: what the ten operations of a rule do with numbers of 32 bits, one function each, in document 01's order.
// "All arithmetic on numbers is modulo 2^32": a sum, difference or product is worked out in 64 bits, where it has room, and its remainder by 2^32 is kept.
// Each function is proved equal, at all numbers, to its definition on meaning's page Arithmetic; the examples here are computed in specs/Examples.antt.
// A division by 0 has no value: it is None. `Operation` names the nine that take two values. Assumes nothing.
#![tactic(auto)]

ghost use Rattle.std.specs.Prelude.{◌≡◌, ◌+◌, ◌-◌, ◌%◌};
ghost use Rattle.meaning.specs.Arithmetic.{modulus, sum, product, quotient, remainder, equal, less, both, either, opposite};
ghost use Rattle.word.specs.Operated.{divides, operated, operation_number, ReadAs};

// 2^32. Numbers run from 0 to 4294967295, one below it. Sums, differences and products show it, and don't wrap unseen: docs/landings/e.md promised that.
const MODULUS: u64 = 4294967296;

// `+`: the sum, modulo 2^32. 4294967295 + 1 is 0.
#[tactic(auto, unfolding(meaning::specs::Arithmetic::sum))]
fn plus(a: u32, b: u32) -> u32
    ensures { result ≡ sum a b }
{
    ((a as u64 + b as u64) % MODULUS) as u32
}

// `-`: the difference, modulo 2^32; with 2^32 added first it is never below 0. "so 3 - 4294967290 is 9": a counter that has passed its top gives what was used.
fn minus(a: u32, b: u32) -> u32
    ensures { result ≡ (a + (modulus - b)) % modulus }
{
    ((a as u64 + MODULUS - b as u64) % MODULUS) as u32
}

// `*`: the product, modulo 2^32. 65536 * 65537 is 65536.
#[tactic(auto, unfolding(meaning::specs::Arithmetic::product))]
fn times(a: u32, b: u32) -> u32
    ensures { result ≡ product a b }
{
    ((a as u64 * b as u64) % MODULUS) as u32
}

// `/`: it rounds down. "A divisor of 0 has to stop the run": it has no value then. 4294967295 / 2 is 2147483647.
#[tactic(auto, unfolding(crate::specs::Operated::divides, meaning::specs::Arithmetic::quotient))]
fn divided(a: u32, b: u32) -> Option<u32>
    ensures { result ≡ divides quotient a b }
{
    a.checked_div(b)
}

// `%`: what such a division leaves. 4294967295 % 10 is 5.
#[tactic(auto, unfolding(crate::specs::Operated::divides, meaning::specs::Arithmetic::remainder))]
fn left_over(a: u32, b: u32) -> Option<u32>
    ensures { result ≡ divides remainder a b }
{
    a.checked_rem(b)
}

// `=`: "Yes is 1, no is 0." 4294967295 = 4294967295 is 1, 4294967295 = 0 is 0.
#[tactic(auto, unfolding(meaning::specs::Arithmetic::equal))]
fn same(a: u32, b: u32) -> u32
    ensures { result ≡ equal a b }
{
    u32::from(a == b)
}

// `<`: numbers are compared as they stand. 3 < 4294967290 is 1, though the counter that shows 3 may have passed its top.
#[tactic(auto, unfolding(meaning::specs::Arithmetic::less))]
fn below(a: u32, b: u32) -> u32
    ensures { result ≡ less a b }
{
    u32::from(a < b)
}

// `&`: yes where both are. "`&` and `|` work out both sides." 1 & 0 is 0.
#[tactic(auto, unfolding(meaning::specs::Arithmetic::both))]
fn and(a: u32, b: u32) -> u32
    ensures { result ≡ both a b }
{
    u32::from(a != 0 && b != 0)
}

// `|`: yes where either is. 1 | 0 is 1.
#[tactic(auto, unfolding(meaning::specs::Arithmetic::either))]
fn or(a: u32, b: u32) -> u32
    ensures { result ≡ either a b }
{
    u32::from(a != 0 || b != 0)
}

// `!`: yes where it is not. ! 1 is 0.
#[tactic(auto, unfolding(meaning::specs::Arithmetic::opposite))]
pub fn not(a: u32) -> u32
    ensures { result ≡ opposite a }
{
    u32::from(a == 0)
}

// The last operation's number, and the only one that takes one value: `!`. A number, as the code word that a caller in C holds.
pub const NEGATION: u32 = 10;

// An operation that takes two values: `+ - * / % = < & |`.
#[derive(Clone, Copy)]
pub enum Operation {
    Plus,
    Minus,
    Times,
    Divided,
    LeftOver,
    Same,
    Below,
    And,
    Or,
}

// Code words number them from 1 in this order.
impl From<Operation> for u32 {
    ghost from_gives = { λ o n. n ≡ operation_number o };

    fn from(operation: Operation) -> u32 {
        operation as u32 + 1
    }
}

// A number that is of no such operation.
#[derive(Clone, Copy)]
pub struct Unknown;

// And back.
impl TryFrom<u32> for Operation {
    type Error = Unknown;

    ghost try_from_gives = { ReadAs };

    fn try_from(number: u32) -> Result<Operation, Unknown> {
        match number {
            1 => Ok(Operation::Plus),
            2 => Ok(Operation::Minus),
            3 => Ok(Operation::Times),
            4 => Ok(Operation::Divided),
            5 => Ok(Operation::LeftOver),
            6 => Ok(Operation::Same),
            7 => Ok(Operation::Below),
            8 => Ok(Operation::And),
            9 => Ok(Operation::Or),
            _ => Err(Unknown),
        }
    }
}

impl Operation {
    // Its value at two values; None where the second divides and is 0.
    #[tactic(auto, unfolding(crate::specs::Operated::operated, meaning::specs::Arithmetic::difference))]
    pub fn work_out(self, a: u32, b: u32) -> Option<u32>
        ensures { result ≡ operated (operation_number self) a b }
    {
        match self {
            Operation::Plus => Some(plus(a, b)),
            Operation::Minus => Some(minus(a, b)),
            Operation::Times => Some(times(a, b)),
            Operation::Divided => divided(a, b),
            Operation::LeftOver => left_over(a, b),
            Operation::Same => Some(same(a, b)),
            Operation::Below => Some(below(a, b)),
            Operation::And => Some(and(a, b)),
            Operation::Or => Some(or(a, b)),
        }
    }
}

// The operation of this number, 1 to 9, at two values; 0 for any other number. The engine reads an `Operation` first; this says what any number comes to.
#[tactic(auto, unfolding(crate::specs::Operated::operated))]
pub fn operate(number: u32, a: u32, b: u32) -> Option<u32>
    ensures { result ≡ operated number a b }
{
    match Operation::try_from(number) {
        Ok(operation) => operation.work_out(a, b),
        Err(_) => Some(0),
    }
}
