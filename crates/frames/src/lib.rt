// The frame of a call: a level of the work slice is lent on to be filled with where to go on, link, values and entrances. Assumes nothing.
#![tactic(auto)]

ghost use Rattle.std.specs.Prelude.{◌≡◌, [], ◌+◌, ◌-◌, ◌≤◌, ◌<◌, length};
ghost use Rattle.meaning.specs.Numbers.{most_arguments, most_height};
ghost use Rattle.layout.specs.Decoding.{row, leading};
ghost use Rattle.layout.specs.Layout.{level_words, Good};
ghost use Rattle.frames.specs.Frames.{Moved, Copied, Filled, Entered};

// Where a call finds the machine: the level whose frame is first in its environment, the heights of return and data stack, and the top of the latter.
#[derive(Clone, Copy)]
pub struct Caller {
    pub env: usize,
    pub high: usize,
    pub deep: usize,
    pub held: u32,
}

// The last k words of the level's part, to its first slots.
fn move_values(part: &mut [u32], k: usize)
    requires { (k ≤ most_arguments) × (level_words + k ≤ length part.old) }
    ensures { Moved part.old part.new k }
{
    let from = part.len() - k;
    part.copy_within(from.., layout::SLOTS);
}

// The entrances of what waits, up to a 0, to the slots after the k values: how many slots that makes.
fn copy_entrances(part: &mut [u32], k: usize, entrances: &[u32]) -> usize
    requires { (k ≤ most_arguments) × (level_words ≤ length part.old) × (most_arguments ≤ length entrances.now) }
    ensures { Copied part.old part.new k result entrances.now [] }
{
    for n in k..meaning::MOST_ARGUMENTS {
        let entrance = entrances[n - k];
        if entrance == 0 {
            return n;
        }
        part[layout::SLOTS + n] = entrance;
    }
    meaning::MOST_ARGUMENTS
}

// A level whose part ends with the k values that its frame takes.
fn fill(part: &mut [u32], next: u32, link: u32, k: usize, entrances: &[u32])
    requires { (k ≤ most_arguments) × (level_words + k ≤ length part.old) × (most_arguments ≤ length entrances.now) }
    ensures { Filled part.old part.new next link k (leading (row entrances.now 0 (most_arguments - k))) }
{
    move_values(part, k);
    let n = copy_entrances(part, k, entrances);
    part[layout::RETURN] = next;
    part[layout::LINK] = link;
    part[layout::STRICT] = k as u32;
    part[layout::SIZE] = n as u32;
}

// A level more, above the caller's, to go on at `next` afterwards: the last k values go to its frame, and the entrances up to a 0 after them.
pub fn enter(work: &mut [u32], caller: Caller, next: u32, k: usize, entrances: &[u32])
    requires { Good work.old caller.env caller.high caller.deep × (caller.high < most_height) × (k ≤ most_arguments) × (k ≤ caller.deep) × (most_arguments ≤ length entrances.now) }
    ensures { Entered work.old work.new caller.env caller.high caller.held caller.deep k next (leading (row entrances.now 0 (most_arguments - k))) }
{
    work[layout::VALUES + caller.deep] = caller.held;
    let start = layout::LEVEL_WORDS * (caller.high + 1);
    let end = layout::VALUES + caller.deep + 1;
    fill(&mut work[start..end], next, caller.env as u32, k, entrances);
}
