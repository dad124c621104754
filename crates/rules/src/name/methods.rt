// Keeping a word, and comparing it.
ghost use Rattle.std.specs.Prelude.{◌≡◌, take, Decides};
ghost use Rattle.rules.specs.Names.{text_of};

use super::{MOST, Name};
use bounded::Bounded;

impl Name {
    // The word's first eight bytes; a word of a line that is read has no more.
    pub fn new(text: &[u8]) -> Name
        ensures { text_of result ≡ take 8 text.now }
    {
        let first = &text[..text.len().min(MOST)];
        Name {
            bytes: Bounded::from_slice(0, first).unwrap(),
        }
    }

    pub fn text(&self) -> &[u8]
        ensures { result.now ≡ text_of self.now }
    {
        self.bytes.as_slice()
    }

    // Whether it is this word; a method, since `==` compares values of one type.
    pub fn is(&self, text: &[u8]) -> bool
        ensures { Decides result (text_of self.now ≡ text.now) }
    {
        self.text() == text
    }
}
