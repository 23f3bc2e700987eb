// The program's work on slices: the bytes of standard input to the one line of output. Assumes nothing.
#![tactic(auto)]

ghost use Rattle.std.specs.Prelude.{◌≡◌, length};
ghost use Rattle.meaning.specs.Program.{order_of, printed};
ghost use Rattle.console.specs.Responses.{answer_in, code_in, work_in, malformed_answer};

use arrayvec::ArrayString;
use meaning::{Answer, Number, Refusal};
use printing::MOST_PRINTED;

// "prints ARGS before all else"
#[tactic(auto, unfolding(meaning::specs::Numbers::no))]
fn malformed() -> Answer
    ensures { result ≡ malformed_answer }
{
    Answer::from(Refusal {
        number: Number::Args,
        line: 0,
        field: 0,
    })
}

// The answer to what standard input asks for, in the memory lent.
#[tactic(auto, using(crate::proofs::Laws::asked, crate::proofs::Laws::nothing_asked), unfolding(crate::specs::Responses::answer_in, crate::specs::Responses::code_in, crate::specs::Responses::work_in))]
fn answer(input: &[u8], code: &mut [u32], work: &mut [u32]) -> Answer
    ensures answer { result ≡ answer_in (order_of input.now) (length code.old) (length work.old) }
    ensures code { code.new ≡ code_in (order_of input.now) code.old (length work.old) }
    ensures work { work.new ≡ work_in (order_of input.now) (length code.old) work.old }
{
    let Some(order) = order::read_order(input) else {
        return malformed();
    };
    let args = order.args.as_slice();
    nespralha::run(&input[order.text..], args, order.limit, code, work)
}

// The line that answers it.
pub fn respond(input: &[u8], code: &mut [u32], work: &mut [u32]) -> ArrayString<MOST_PRINTED>
    ensures line { result.bytes ≡ printed (answer_in (order_of input.now) (length code.old) (length work.old)) }
    ensures code { code.new ≡ code_in (order_of input.now) code.old (length work.old) }
    ensures work { work.new ≡ work_in (order_of input.now) (length code.old) work.old }
{
    printing::print(answer(input, code, work))
}
