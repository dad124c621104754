// Decimal numbers up to 32,767, and the values of a fact line.
ghost use Rattle.std.specs.Prelude.{MatchOption};
ghost use Rattle.patterns.specs.Asking.{GoodNumber, Number};
ghost use Rattle.reading.specs.Numbers.{Valued, Asks};

use super::Values;
use crate::line::FactLine;
use bounded::Bounded;
use questions::question::{Question, Refusal};

const GREATEST: u32 = 32_767;

// The number that the bytes spell. It is given up as soon as it is too large, so that nothing overflows. Not `parse`, which takes a leading plus.
fn decimal(text: &[u8]) -> Option<u16>
    ensures { MatchOption result (GoodNumber text.now → ⊥) (λ n. Number text.now n) }
{
    if text.is_empty() {
        return None;
    }
    let mut n: u16 = 0;
    for b in text {
        if !b.is_ascii_digit() {
            return None;
        }
        let next = 10 * u32::from(n) + u32::from(*b - b'0');
        if next > GREATEST {
            return None;
        }
        // It fits, as is proved; `try_from` would say it at more length.
        n = next as u16;
    }
    Some(n)
}

impl<'a> FactLine<'a> {
    // The numbers in the brackets, or the first word that is none.
    pub fn values(&self) -> Result<Values, Refusal>
        ensures values { Valued self.now result }
        ensures asked { Asks self.now result }
    {
        let words = self.atom.words();
        let mut values = Bounded::new(0);
        for word in words {
            let number = decimal(word.text).ok_or(Question::Numbers.at(word.place))?;
            // There are four words at most.
            values.push(number).unwrap();
        }
        Ok(values)
    }
}
