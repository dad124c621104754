// A text cut into numbered lines, handed out one by one.
#![tactic(auto)]

ghost use Rattle.std.specs.Prelude.{◌≡◌, ◌-◌, ◌≤◌, length};
ghost use Rattle.std.specs.Iterator.{at_most};
ghost use Rattle.lines.specs.Cutting.{CutDetermined, Ends, Next};

pub use crate::line::NumberedLine;

mod line;

// How many bytes stand before the first newline; all of them, if there is none.
fn line_length(text: &[u8]) -> usize
    ensures { Ends text.now result }
{
    text.iter()
        .position(|&byte| byte == b'\n')
        .unwrap_or(text.len())
}

// A text, the place up to which it has been cut, and how many lines were handed out. A line takes a byte or more of the text, so their number does not overflow.
#[derive(Drop)]
pub struct Lines<'a> {
    text: &'a [u8],
    at: usize,
    number: usize,
    ghost room: { number ≤ at },
    ghost within: { at ≤ length text.now },
}

impl<'a> Lines<'a> {
    pub fn new(text: &'a [u8]) -> Lines<'a>
        ensures text { result.text ≡ text.entry }
        ensures at { result.at ≡ 0 }
        ensures number { result.number ≡ 0 }
    {
        Lines {
            text,
            at: 0,
            number: 0,
        }
    }

    // How many lines were handed out.
    pub fn handed_out(&self) -> usize
        ensures { result ≡ self.now.number }
    {
        self.number
    }
}

// The next line, or none at the text's end.
impl<'a> Iterator for Lines<'a> {
    type Item = NumberedLine<'a>;

    ghost next_gives = { λ s r t. (t.text ≡ s.text) × Next s.text s.at s.number t.at t.number r × CutDetermined s.text.now };

    ghost remaining = { λ s. at_most (length s.text.now - s.at) };

    fn next(&mut self) -> Option<NumberedLine<'a>> {
        let rest = &self.text[self.at..];
        if rest.is_empty() {
            return None;
        }
        let length = line_length(rest);
        // The newline is cut off too, if there is one.
        let cut = rest.len().min(length + 1);
        self.at += cut;
        self.number += 1;
        Some(NumberedLine {
            number: self.number,
            text: &rest[..length],
        })
    }
}
