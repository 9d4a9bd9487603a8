// The parts of a line.
ghost use Rattle.std.specs.Prelude.{◌≡◌, ◌≤◌, ◌∷◌, ◌==◌, length, position};
ghost use Rattle.std.specs.Iterator.{YieldsFirstRef, item_count};
ghost use Rattle.script.specs.Text.{first_part, parts};
ghost use Rattle.script.specs.Meaning.{behind, to_come};

// What parts a line from what stands before it.
const BLANK: u8 = b' ';

// The parts that are to come, as std's `split` gives them, by a type that clauses can name without the closure.
// `rest` is the text that begins with the next one.
#[derive(Clone, Copy)]
pub struct Parts<'a> {
    pub rest: Option<&'a [u8]>,
}

// Where the first blank stands.
fn blank_in(text: &[u8]) -> Option<usize>
    ensures { result ≡ position (λ c. c == 32) text.now }
{
    text.iter().position(|c| *c == BLANK)
}

// The first part of a text, and the text behind the blank that ends it, if one does.
#[tactic(auto, using(crate::proofs::Reading::cut_at, crate::proofs::Reading::uncut))]
fn cut(text: &[u8]) -> (&[u8], Option<&[u8]>)
    ensures { parts text.now ≡ result.0.now ∷ behind result.1 }
{
    match blank_in(text) {
        Some(end) => (&text[..end], Some(&text[end + 1..])),
        None => (text, None),
    }
}

// The first part of a text.
#[tactic(auto, using(crate::proofs::Reading::first_of, crate::proofs::Reading::first_within))]
pub fn first_part(text: &[u8]) -> &[u8]
    ensures value { result.now ≡ first_part text.now }
    ensures within { length result.now ≤ length text.now }
{
    cut(text).0
}

impl<'a> Parts<'a> {
    // All parts of a text.
    pub fn of(text: &'a [u8]) -> Parts<'a>
        ensures { to_come result ≡ parts text.now }
    {
        Parts { rest: Some(text) }
    }
}

impl<'a> Iterator for Parts<'a> {
    type Item = &'a [u8];

    ghost next_gives = { YieldsFirstRef to_come };

    ghost remaining = { item_count to_come };

    fn next(&mut self) -> Option<&'a [u8]> {
        let (first, rest) = cut(self.rest?);
        self.rest = rest;
        Some(first)
    }
}
