// The first line of standard input: the step limit and the arguments. Assumes nothing.
#![tactic(auto)]

ghost use Rattle.std.specs.Prelude.{◌≡◌, []};
ghost use Rattle.std.specs.Option.{option_map};
ghost use Rattle.meaning.specs.Text.{pieces, tab};
ghost use Rattle.meaning.specs.Program.{order_of};
ghost use Rattle.fields.specs.Fields.{rest};
ghost use Rattle.order.specs.Lists.{values_of};
ghost use Rattle.order.specs.Asked.{arguments_from, said, line_read, Asks};

mod list;

use lines::LineFields;
pub use list::ArgumentList;

// The longest first line.
const FIRST_LINE_BYTES: usize = 128;

// So many bytes of standard input settle the answer (`enough` in proofs/Enough.antt): the longest first line with its end, and a byte more than the longest text.
pub const MOST_INPUT: usize = FIRST_LINE_BYTES + 1 + (meaning::MOST_BYTES + 1);

pub type Arguments = ArgumentList;

// What a well-formed first line asks for: limit, arguments, and where the text after it begins.
#[derive(Clone, Copy)]
pub struct Order {
    pub limit: u32,
    pub args: Arguments,
    pub text: usize,
}

// The arguments of a first line, by what stands after the limit: from the tab before the first of them on.
fn arguments(after: &[u8]) -> Option<Arguments>
    ensures { option_map values_of result ≡ arguments_from [] (rest tab after.now) }
{
    let mut args = Arguments::new();
    for field in (LineFields { rest: after }) {
        args = args.push(fields::decimal_value(field)?)?;
    }
    Some(args)
}

// The limit and the arguments of a first line.
fn decimals(line: &[u8], text: usize) -> Option<Order>
    ensures { option_map said result ≡ line_read text (pieces tab line.now) }
{
    let end = fields::piece_end(line, 0, fields::TAB);
    let limit = fields::decimal_value(&line[..end])?;
    let args = arguments(&line[end..])?;
    Some(Order { limit, args, text })
}

// What standard input asks for.
pub fn read_order(input: &[u8]) -> Option<Order>
    ensures { Asks input.now (order_of input.now) result }
{
    let end = fields::piece_end(input, 0, fields::LINE_END);
    if input.len() <= end || FIRST_LINE_BYTES < end {
        return None;
    }
    decimals(&input[..end], end + 1)
}
