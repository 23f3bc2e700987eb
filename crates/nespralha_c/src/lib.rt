// The engine for a caller in C, declared in include/nespralha.h: a slice is a pointer and a length. Each function is the engine's, with its contract.
// Assumes nothing.
#![tactic(auto)]

ghost use Rattle.std.specs.Prelude.{◌≡◌, length};
ghost use Rattle.meaning.specs.Answers.{check_answer, check_heads, translate_answer, translate_code, run_answer, run_code, run_work};

use meaning::{Answer, Checked, Head};

#[unsafe(no_mangle)]
pub extern "C" fn nespralha_check(text: &[u8], heads: &mut [Head]) -> Checked
    ensures { (result ≡ check_answer text.now (length heads.old)) × (heads.new ≡ check_heads text.now heads.old) }
{
    nespralha::check(text, heads)
}

#[unsafe(no_mangle)]
pub extern "C" fn nespralha_translate(text: &[u8], code: &mut [u32]) -> Checked
    ensures answer { result ≡ translate_answer text.now (length code.old) }
    ensures code { code.new ≡ translate_code text.now code.old }
{
    nespralha::translate(text, code)
}

#[unsafe(no_mangle)]
pub extern "C" fn nespralha_run(
    text: &[u8],
    args: &[u32],
    limit: u32,
    code: &mut [u32],
    work: &mut [u32],
) -> Answer
    ensures answer { result ≡ run_answer text.now args.now limit (length code.old) (length work.old) }
    ensures code { code.new ≡ run_code text.now args.now code.old (length work.old) }
    ensures work { work.new ≡ run_work text.now args.now (length code.old) work.old }
{
    nespralha::run(text, args, limit, code, work)
}
