// Fields of a text: where they end, what forms they have, decimals, names as numbers. Each field is looked at where it stands; nothing is copied out
// of the text. Every line and field that is cut out of a text ends where `piece_end` says, which goes through the reader of fields (`reader::field`).
// Each function looks at a byte once. Assumes nothing.
#![tactic(auto)]

ghost use Rattle.std.specs.Prelude.{◌≡◌, ◌+◌, ◌≤◌, length, drop};
ghost use Rattle.meaning.specs.Text.{is_visible, is_name, are_sorts, is_result, is_sort};
ghost use Rattle.fields.specs.Fields.{span, visible_span, occurrences, count_of, decimal_of, digits_from, packed, is_name_byte};

pub const TAB: u8 = 9;

pub const LINE_END: u8 = 10;

// How long a name may be.
pub const NAME_BYTES: usize = 8;

// Where the piece that begins at `from` ends: at the first byte b, or at the end. The reader of fields finds it.
pub fn piece_end(s: &[u8], from: usize, b: u8) -> usize
    requires { from ≤ length s.now }
    ensures is { result ≡ from + span b (drop from s.now) }
    ensures within { (from ≤ result) × (result ≤ length s.now) }
{
    reader::field(s, from, b)
}

// How often a byte stands in a text.
pub fn occurrences_of(s: &[u8], b: u8) -> usize
    ensures { result ≡ occurrences b s.now }
{
    s.iter().filter(|x| **x == b).count()
}

// Where the visible bytes that begin at `from` end.
pub fn visible_end(s: &[u8], from: usize) -> usize
    requires { from ≤ length s.now }
    ensures is { result ≡ from + visible_span (drop from s.now) }
    ensures within { (from ≤ result) × (result ≤ length s.now) }
{
    let seen = s[from..].iter().take_while(|b| b.is_ascii_graphic());
    from + seen.count()
}

// "empty, holds a byte outside 33 to 126"
#[tactic(auto, unfolding(meaning::specs::Text::is_visible))]
pub fn visible(f: &[u8]) -> bool
    ensures { result ≡ is_visible f.now }
{
    !f.is_empty() && f.iter().all(|b| b.is_ascii_graphic())
}

fn name_byte(b: u8) -> bool
    ensures { result ≡ is_name_byte b }
{
    b.is_ascii_uppercase() || b.is_ascii_digit()
}

// "name: a capital, then up to seven capitals or digits"
#[tactic(auto, using(crate::proofs::Laws::name_is, crate::proofs::Laws::name_none, crate::proofs::Laws::name_long))]
pub fn name(f: &[u8]) -> bool
    ensures { result ≡ is_name f.now }
{
    match f {
        [first, rest @ ..] if f.len() <= NAME_BYTES => {
            first.is_ascii_uppercase() && rest.iter().all(|b| name_byte(*b))
        }
        _ => false,
    }
}

// "strict count, one digit 0 to 8"
#[tactic(auto, unfolding(meaning::specs::Text::is_count, crate::specs::Fields::count_of, meaning::specs::Text::value_from))]
pub fn strict_count(f: &[u8]) -> Option<u32>
    ensures { result ≡ count_of f.now }
{
    match f {
        [b @ b'0'..=b'8'] => Some(u32::from(b - b'0')),
        _ => None,
    }
}

fn sort(b: u8) -> bool
    ensures { result ≡ is_sort b }
{
    matches!(b, b'n' | b'b')
}

// "argument sorts, 1 to 8 letters, each n (number) or b (yes/no)"; "a strict count above the number of sorts counts against field 3"
#[tactic(auto, using(crate::proofs::Laws::sorts_are, crate::proofs::Laws::sorts_none, crate::proofs::Laws::sorts_long))]
pub fn sorts(strict: u32, f: &[u8]) -> bool
    ensures { result ≡ are_sorts strict f.now }
{
    match f.len() {
        1..=meaning::MOST_ARGUMENTS if strict as usize <= f.len() => f.iter().all(|b| sort(*b)),
        _ => false,
    }
}

// "result sort, n or b"
#[tactic(auto, unfolding(meaning::specs::Text::is_result))]
pub fn result(f: &[u8]) -> bool
    ensures { result ≡ is_result f.now }
{
    matches!(f, [b] if sort(*b))
}

// The value of digits that may begin with zeros, given up once it is too large.
#[tactic(auto, using(crate::proofs::Laws::digits_stop, crate::proofs::Laws::digits_over, crate::proofs::Laws::digits_on, crate::proofs::Laws::digits_end))]
fn digits(f: &[u8]) -> Option<u32>
    ensures { result ≡ digits_from 0 f.now }
{
    let mut v: u32 = 0;
    for b in f {
        if !b.is_ascii_digit() {
            return None;
        }
        v = v.checked_mul(10)?.checked_add(u32::from(b - b'0'))?;
    }
    Some(v)
}

// "decimals 0 to 4294967295 without leading zeros"
#[tactic(auto, using(crate::proofs::Laws::decimal_none, crate::proofs::Laws::decimal_led, crate::proofs::Laws::decimal_digits))]
pub fn decimal_value(f: &[u8]) -> Option<u32>
    ensures { result ≡ decimal_of f.now }
{
    match f {
        [] | [b'0', _, ..] => None,
        _ => digits(f),
    }
}

// A field of at most eight bytes as one number, its first byte the lowest.
pub fn packed_name(f: &[u8]) -> u64
    requires { length f.now ≤ 8 }
    ensures { result ≡ packed f.now }
{
    f.iter().rev().fold(0, |v, b| (v << 8) | u64::from(*b))
}
