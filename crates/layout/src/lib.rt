// The numbers of code words and of the work memory's layout, as specs/Decoding.antt and specs/Layout.antt have them; what is proved of decoding and of the
// layout stands in specs/ and proofs/. Assumes nothing.
#![tactic(auto)]

// The kinds of instruction: numbers and no enum, since they are words of the code slice, which a caller in C holds; the step matches the word itself.
pub const EVAL: u32 = 1;

pub const EXEC: u32 = 2;

pub const SELECT: u32 = 3;

pub const CALL: u32 = 4;

pub const RET: u32 = 5;

// An instruction's words after its kind: next address, then by kind an argument's position; an operation and a constant's value; the entrances of
// the yes and the no branch; the body's entrance, the strict count and the entrances of the waiting arguments.
pub const NEXT: usize = 1;

pub const POSITION: usize = 2;

pub const OPERATION: usize = 2;

pub const CONSTANT: usize = 3;

pub const NO: usize = 3;

pub const BODY: usize = 2;

pub const COUNT: usize = 3;

pub const ENTRANCES: usize = 4;

// Levels are found by index in the one slice of words that a caller in C lends.
// Level p is LEVEL_WORDS words from LEVEL_WORDS * p on: where to go on once it returns, the link, the strict count, the frame's size, the frame's slots.
pub const LEVEL_WORDS: usize = 12;

pub const RETURN: usize = 0;

pub const LINK: usize = 1;

pub const STRICT: usize = 2;

pub const SIZE: usize = 3;

pub const SLOTS: usize = 4;

// The data stack lies behind the levels 0 to MOST_HEIGHT.
pub const VALUES: usize = LEVEL_WORDS * (meaning::MOST_HEIGHT + 1);
