// Arguments that know how many they are. Assumes nothing.
#![tactic(auto)]

ghost use Rattle.std.specs.Prelude.{◌≡◌, ◌≤◌, []};
ghost use Rattle.std.specs.Option.{option_map};
ghost use Rattle.meaning.specs.Numbers.{most_arguments};

use meaning::MOST_ARGUMENTS;

// Up to eight arguments.
#[derive(Clone, Copy)]
pub struct ArgumentList {
    values: [u32; MOST_ARGUMENTS],
    count: usize,
    ghost few: { count ≤ most_arguments },
}

impl ArgumentList {
    ghost use Rattle.order.specs.Lists.{values_of, with_argument};

    pub fn new() -> Self
        ensures { values_of result ≡ [] }
    {
        ArgumentList {
            values: [0; MOST_ARGUMENTS],
            count: 0,
        }
    }

    // One argument more, where there is room.
    #[tactic(auto, unfolding(crate::specs::Lists::with_argument))]
    pub fn push(mut self, argument: u32) -> Option<Self>
        ensures { option_map values_of result ≡ with_argument (values_of self) argument }
    {
        if MOST_ARGUMENTS <= self.count {
            return None;
        }
        self.values[self.count] = argument;
        self.count += 1;
        Some(self)
    }

    pub fn as_slice(&self) -> &[u32]
        ensures { result.now ≡ values_of self.now }
    {
        &self.values[..self.count]
    }
}
