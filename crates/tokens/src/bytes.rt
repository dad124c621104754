// The byte check: does every byte of a line belong to a token or a blank?
ghost use Rattle.std.specs.Prelude.{◌<◌, List, length, Decides, MatchOption};
ghost use Rattle.tokens.specs.Reach.{Single, Reaches};
ghost use Rattle.tokens.specs.Tokens.{Token, Tokens, Stray, Determined};

use crate::{is_arrow, is_bars, is_word_byte};

// Bytes that are passed one at a time. A word is passed byte by byte, so that no byte is judged twice.
fn is_single(b: u8) -> bool
    ensures { Decides result (Single b) }
{
    is_word_byte(b) || matches!(b, b' ' | b'(' | b')' | b',' | b'.')
}

// How many bytes from `at` on are passed at once; none if the byte there belongs to no token.
fn reach(line: &[u8], at: usize) -> Option<usize>
    requires { at < length line.now }
    ensures { Reaches line.now at result }
{
    if is_single(line[at]) {
        Some(1)
    } else if is_arrow(line, at) {
        Some(2)
    } else if is_bars(line, at) {
        Some(3)
    } else {
        None
    }
}

// The first byte that belongs to no token and is no blank.
pub fn first_stray(line: &[u8]) -> Option<usize>
    ensures found { MatchOption result ((ts : List Token) × Tokens line.now ts) (λ p. Stray line.now p) }
    ensures determined { Determined line.now }
{
    let mut stray = None;
    // What lies before it belongs to a mark that was passed whole.
    let mut due = 0;
    // By place, since a mark is passed whole: what counts is the place and not the byte that stands there.
    for i in 0..line.len() {
        if due <= i {
            match reach(line, i) {
                Some(n) => due = i + n,
                None => stray = stray.or(Some(i)),
            }
        }
    }
    stray
}
