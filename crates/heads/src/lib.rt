// Heads of functions, from the table's signatures and addresses: the one writer of a lent slice of them, and an array of them by value. Assumes nothing.
#![tactic(auto)]

ghost use Rattle.std.specs.Prelude.{◌≡◌, ◌++◌, ◌≤◌, length, drop};
ghost use Rattle.meaning.specs.Numbers.{most_functions};
ghost use Rattle.heads.specs.Heads.{head, heads_list, heads_by};

use meaning::{Head, MOST_FUNCTIONS};
use table::Signature;

// As many heads as a text can have: one a function, then entries of zeros.
#[derive(Clone, Copy)]
pub struct Heads {
    pub list: [Head; MOST_FUNCTIONS],
}

// "argument count, strict count, result sort (n 0, b 1), address of the body's first symbol"
#[tactic(auto, unfolding(crate::specs::Heads::head))]
fn head_of(signature: Signature, body: u32) -> Head
    ensures { result ≡ head signature body }
{
    Head {
        args: signature.sorts.count,
        strict: signature.strict,
        result: u32::from(signature.result),
        body,
    }
}

// The heads of the functions of these signatures, whose bodies begin at these addresses, into the lent slice; the rest of it is unchanged.
pub fn put_heads(heads: &mut [Head], signatures: &[Signature], bodies: &[u32])
    requires { (length signatures.now ≤ length heads.old) × (length signatures.now ≤ length bodies.now) }
    ensures { heads.new ≡ heads_list signatures.now bodies.now ++ drop (length signatures.now) heads.old }
{
    for (i, (signature, body)) in signatures.iter().zip(bodies).enumerate() {
        heads[i] = head_of(*signature, *body);
    }
}

// The heads of the first n functions.
pub fn heads_of(signatures: &[Signature], bodies: &[u32], n: usize) -> Heads
    requires { (n ≤ most_functions) × (n ≤ length signatures.now) × (n ≤ length bodies.now) }
    ensures { result.list ≡ heads_by signatures.now bodies.now n }
{
    let none = Head {
        args: 0,
        strict: 0,
        result: 0,
        body: 0,
    };
    let mut list = [none; MOST_FUNCTIONS];
    put_heads(&mut list, &signatures[..n], &bodies[..n]);
    Heads { list }
}
