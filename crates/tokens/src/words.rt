// The word that begins at a place.
ghost use Rattle.std.specs.Prelude.{Decides};
ghost use Rattle.tokens.specs.Words.{Begins, WordAt};

use crate::{is_word_byte, part, run_end};

fn begins_word(line: &[u8], place: usize) -> bool
    ensures { Decides result (Begins line.now place) }
{
    if place >= line.len() || !is_word_byte(line[place]) {
        return false;
    }
    place == 0 || !is_word_byte(line[place - 1])
}

// The word that begins at `place`, or, if none begins there, the empty part at the line's end: a call of the product, which answers so and not by an `Option`.
pub fn word<'a>(line: &'a [u8], place: usize) -> &'a [u8]
    ensures { WordAt line.entry result place }
{
    if begins_word(line, place) {
        part(line, place, run_end(line, place))
    } else {
        part(line, line.len(), line.len())
    }
}
