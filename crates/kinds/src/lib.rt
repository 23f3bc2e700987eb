// One step of the machine: registers and a tally by value, one method for each kind of instruction, and the step that goes by the kind.
// Each method's contract says what it comes to against the machine's own clause for that instruction, for any code words. Assumes nothing.
#![tactic(auto)]

ghost use Rattle.std.specs.Prelude.{◌≡◌, ◌≤◌, get_or, MatchOption};
ghost use Rattle.std.proofs.Math.Option.{none, some};
ghost use Rattle.meaning.specs.Code.{RET};
ghost use Rattle.layout.specs.Decoding.{operation_word, eval_at, exec_at, select_at, call_at, of_kind, decode};
ghost use Rattle.kinds.specs.Met.{none_done, counted, Few, Running, pushing, opening, Met, Obeyed};

use frames::Caller;
use meaning::Number;
use word::Operation;

// The code words of one instruction.
type Instruction = [u32; meaning::INSTRUCTION_WORDS];

// The words at this address; none where the code ends before they do. (`as_chunks` over the whole code was tried: a step is slower by 18 to 32 percent.)
fn instruction_at(code: &[u32], address: u32) -> Option<&Instruction>
    ensures { MatchOption result (decode code.now address ≡ none) (λ words. decode code.now address ≡ of_kind (get_or words.now 0 0) words.now 0) }
{
    let base = meaning::INSTRUCTION_WORDS * address as usize;
    code.get(base..base + meaning::INSTRUCTION_WORDS)?
        .try_into()
        .ok()
}

// Steps and rewrites of a run, carried from step to step.
#[derive(Clone, Copy)]
pub struct Tally {
    pub steps: u64,
    pub rewrites: u64,
}

impl Tally {
    pub fn new() -> Self
        ensures { result ≡ none_done }
    {
        Self {
            steps: 0,
            rewrites: 0,
        }
    }

    // One machine step.
    fn step(self) -> Self
        requires { Few self }
        ensures { result ≡ counted 0 self }
    {
        Self {
            steps: self.steps + 1,
            ..self
        }
    }

    // One machine step that is a rewrite.
    fn rewrite(self) -> Self
        requires { Few self }
        ensures { result ≡ counted 1 self }
    {
        Self {
            rewrites: self.rewrites + 1,
            ..self.step()
        }
    }
}

// What the machine holds beside the work words: the top of the data stack, the address, the level whose frame is first in the environment, and the
// heights of return and data stack. At height 0 it has stopped.
#[derive(Clone, Copy)]
pub struct Registers {
    pub held: u32,
    pub at: u32,
    pub env: usize,
    pub high: usize,
    pub deep: usize,
    pub tally: Tally,
}

// A step that is not made says why, and leaves the work words as they were: DEEP, STUCK or ZERO. `Running` stands in each contract and in no type: it joins
// registers, which go by value so that they stay in the processor's, with work words that are lent.
impl Registers {
    // A value more, and on to what follows.
    fn push(self, v: u32, after: u32, tally: Tally, work: &mut [u32]) -> Result<Self, Number>
        requires { Running work.old self }
        ensures { Met tally (pushing work.old self v after) result work.old work.new }
    {
        if meaning::MOST_HEIGHT <= self.deep {
            return Err(Number::Deep);
        }
        work[layout::VALUES + self.deep] = self.held;
        Ok(Self {
            held: v,
            at: after,
            deep: self.deep + 1,
            tally,
            ..self
        })
    }

    // A level for the term of a waiting argument: its environment is the one below the frame that holds the argument.
    fn open_level(self, entrance: u32, after: u32, work: &mut [u32]) -> Result<Self, Number>
        requires { Running work.old self × (1 ≤ self.env) }
        ensures { Met (counted 0 self.tally) (opening work.old self entrance after) result work.old work.new }
    {
        if meaning::MOST_HEIGHT <= self.high {
            return Err(Number::Deep);
        }
        let below = work[layout::LEVEL_WORDS * self.env + layout::LINK] as usize;
        let level = layout::LEVEL_WORDS * (self.high + 1);
        work[level + layout::RETURN] = after;
        work[level + layout::LINK] = self.env as u32;
        Ok(Self {
            at: entrance,
            env: below,
            high: self.high + 1,
            tally: self.tally.step(),
            ..self
        })
    }

    // EVAL: the value of an argument, or a level for its term.
    fn look_up(self, instruction: &Instruction, work: &mut [u32]) -> Result<Self, Number>
        requires { Running work.old self }
        ensures { Obeyed (eval_at instruction.now 0) self result work.old work.new }
    {
        let position = instruction[layout::POSITION] as usize;
        let after = instruction[layout::NEXT];
        if position == 0 || self.env == 0 || meaning::MOST_ARGUMENTS < position {
            return Err(Number::Stuck);
        }
        let level = layout::LEVEL_WORDS * self.env;
        let v = work[level + (layout::SLOTS + (position - 1))];
        if position <= work[level + layout::STRICT] as usize {
            return self.push(v, after, self.tally.step(), work);
        }
        if (work[level + layout::SIZE] as usize) < position {
            return Err(Number::Stuck);
        }
        self.open_level(v, after, work)
    }

    // EXEC of an operation that is no constant: its value in the place of those that it takes, or that it would divide by 0.
    fn work_out(self, instruction: &Instruction, work: &[u32]) -> Result<Self, Number>
        requires { Running work.now self × (1 ≤ get_or instruction.now operation_word 0) }
        ensures { Obeyed (exec_at instruction.now 0) self result work.now work.now }
    {
        let number = instruction[layout::OPERATION];
        let at = instruction[layout::NEXT];
        if number == word::NEGATION {
            if self.deep == 0 {
                return Err(Number::Stuck);
            }
            return Ok(Self {
                held: word::not(self.held),
                at,
                tally: self.tally.rewrite(),
                ..self
            });
        }
        let Ok(operation) = Operation::try_from(number) else {
            return Err(Number::Stuck);
        };
        if self.deep < 2 {
            return Err(Number::Stuck);
        }
        let below = work[layout::VALUES + (self.deep - 1)];
        let Some(held) = operation.work_out(below, self.held) else {
            return Err(Number::Zero);
        };
        Ok(Self {
            held,
            at,
            deep: self.deep - 1,
            tally: self.tally.rewrite(),
            ..self
        })
    }

    // EXEC: a constant's value more, its operation being 0, or an operation worked out.
    fn operate(self, instruction: &Instruction, work: &mut [u32]) -> Result<Self, Number>
        requires { Running work.old self }
        ensures { Obeyed (exec_at instruction.now 0) self result work.old work.new }
    {
        if instruction[layout::OPERATION] != 0 {
            return self.work_out(instruction, work);
        }
        self.push(
            instruction[layout::CONSTANT],
            instruction[layout::NEXT],
            self.tally.rewrite(),
            work,
        )
    }

    // SELECT: on at the branch that a yes/no picks. The entrance of the no branch stands one word after that of the yes branch.
    fn choose(self, instruction: &Instruction, work: &[u32]) -> Result<Self, Number>
        requires { Running work.now self }
        ensures { Obeyed (select_at instruction.now 0) self result work.now work.now }
    {
        if self.deep == 0 || 1 < self.held {
            return Err(Number::Stuck);
        }
        Ok(Self {
            held: work[layout::VALUES + (self.deep - 1)],
            at: instruction[layout::NO - self.held as usize],
            deep: self.deep - 1,
            tally: self.tally.rewrite(),
            ..self
        })
    }

    // CALL: a level with its frame, and on at the body.
    fn call(self, instruction: &Instruction, work: &mut [u32]) -> Result<Self, Number>
        requires { Running work.old self }
        ensures { Obeyed (call_at instruction.now 0) self result work.old work.new }
    {
        let strict = instruction[layout::COUNT] as usize;
        if meaning::MOST_ARGUMENTS < strict || self.deep < strict {
            return Err(Number::Stuck);
        }
        let level = self.high + 1;
        if meaning::MOST_HEIGHT < level {
            return Err(Number::Deep);
        }
        let caller = Caller {
            env: self.env,
            high: self.high,
            deep: self.deep,
            held: self.held,
        };
        frames::enter(
            work,
            caller,
            instruction[layout::NEXT],
            strict,
            &instruction[layout::ENTRANCES..],
        );
        Ok(Self {
            held: work[layout::VALUES + (self.deep - strict)],
            at: instruction[layout::BODY],
            env: level,
            high: level,
            deep: self.deep - strict,
            tally: self.tally.rewrite(),
        })
    }

    // RET: back in both stacks.
    fn go_back(self, work: &[u32]) -> Self
        requires { Running work.now self }
        ensures { Obeyed (some RET) self (Ok result) work.now work.now }
    {
        let level = layout::LEVEL_WORDS * self.high;
        Self {
            at: work[level + layout::RETURN],
            env: work[level + layout::LINK] as usize,
            high: self.high - 1,
            tally: self.tally.step(),
            ..self
        }
    }

    // One step, by the kind of the instruction at the machine's address: a match, since the kinds are settled; a table of functions would say no more.
    pub fn step(self, code: &[u32], work: &mut [u32]) -> Result<Self, Number>
        requires { Running work.old self }
        ensures { Obeyed (decode code.now self.at) self result work.old work.new }
    {
        let Some(instruction) = instruction_at(code, self.at) else {
            return Err(Number::Stuck);
        };
        match instruction[0] {
            layout::EVAL => self.look_up(instruction, work),
            layout::EXEC => self.operate(instruction, work),
            layout::SELECT => self.choose(instruction, work),
            layout::CALL => self.call(instruction, work),
            layout::RET => Ok(self.go_back(work)),
            _ => Err(Number::Stuck),
        }
    }
}
