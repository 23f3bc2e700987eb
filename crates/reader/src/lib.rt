// The reader of fields: it holds the text it was lent and the place it has reached; nothing is copied out of the text.
// `new`, `at` and, over `first_at`, `next` are thin; `field` is the plain function above them that `fields::piece_end` goes through. Assumes nothing.
#![tactic(auto)]

ghost use Rattle.std.specs.Prelude.{◌≡◌, ◌+◌, drop};
ghost use Rattle.reader.specs.Span.{span};

#[derive(Clone, Copy)]
pub struct Reader<'a> {
    pub text: &'a [u8],
    pub at: usize,
}

impl<'a> Reader<'a> {
    // A reader of the text that has reached `at`.
    pub fn new(text: &'a [u8], at: usize) -> Self
        ensures { (result.text ≡ text.entry) × (result.at ≡ at) }
    {
        Self { text, at }
    }

    // Reads the field that begins at the reader's place, up to the first byte b or the end, and moves on to where it ends.
    pub fn next(self, b: u8) -> Self
        ensures { (result.text ≡ self.entry.text) × (result.at ≡ self.entry.at + span b (drop self.entry.at self.entry.text.now)) }
    {
        let at = first_at(self.text, self.at, b);
        Self { at, ..self }
    }

    // The place that it has reached.
    pub fn at(self) -> usize
        ensures { result ≡ self.entry.at }
    {
        self.at
    }
}

// Where the byte b stands first from `at` on; the end where it stands nowhere.
pub fn first_at(text: &[u8], at: usize, b: u8) -> usize
    ensures { result ≡ at + span b (drop at text.now) }
{
    let Some(rest) = text.get(at..) else {
        return at;
    };
    at + rest.iter().take_while(|x| **x != b).count()
}

// Where the field of the text that begins at `from` ends.
pub fn field(text: &[u8], from: usize, b: u8) -> usize
    ensures { result ≡ from + span b (drop from text.now) }
{
    Reader::new(text, from).next(b).at()
}
