// Numbering words by first occurrence.
ghost use Rattle.std.specs.Prelude.{◌≡◌, []};
ghost use Rattle.naming.specs.Names.{names_of, FindsWord, Numbered};

use super::Variables;
use bounded::{Bounded, Full};

impl<'a> Variables<'a> {
    pub fn new() -> Variables<'a>
        ensures { names_of result ≡ [] }
    {
        Variables {
            texts: Bounded::new(&[]),
        }
    }

    // The number of the variable of this text.
    fn find(&self, text: &[u8]) -> Option<usize>
        ensures { FindsWord (names_of self.now) text.now result }
    {
        self.texts
            .as_slice()
            .iter()
            .position(|known| *known == text)
    }

    // The number of the variable of this text, which is a new one if there was none; or there are 32 others. It fits a byte, as is proved; `try_from` would say it at more length.
    pub fn number(&mut self, text: &'a [u8]) -> Result<u8, Full>
        ensures { Numbered (names_of self.old) text.now (names_of self.new) result }
    {
        if let Some(number) = self.find(text) {
            return Ok(number as u8);
        }
        let number = self.texts.len();
        self.texts.push(text)?;
        Ok(number as u8)
    }
}
