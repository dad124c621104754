// Bytes to tokens. Here stand the functions on bytes that its modules share.
#![tactic(auto)]

ghost use Rattle.std.specs.Prelude.{◌≡◌, ◌+◌, ◌-◌, ◌<◌, ◌≤◌, true, length, Decides, slice_index};
ghost use Rattle.std.specs.List.{prefix_len};
ghost use Rattle.lists.specs.Parts.{Part};
ghost use Rattle.tokens.specs.Tokens.{word_byte, Run, Lies};
ghost use Rattle.tokens.specs.Tokens.Kind.{bars, arrow};

pub mod bytes;
pub mod lexer;
pub mod token;
pub mod words;

fn is_word_byte(b: u8) -> bool
    ensures { result ≡ word_byte b }
{
    b.is_ascii_alphanumeric() || b == b'_'
}

// Where a part of a line is taken to be handed out, so that its place in memory is stated once.
fn part<'a>(line: &'a [u8], from: usize, to: usize) -> &'a [u8]
    requires { (from ≤ to) × (to ≤ length line.now) }
    ensures { Part line.entry result from (to - from) }
{
    &line[from..to]
}

// How many of the bytes, from the first on, are bytes of a word.
fn word_length(bytes: &[u8]) -> usize
    ensures count { result ≡ prefix_len word_byte bytes.now }
    ensures fits { result ≤ length bytes.now }
{
    bytes.iter().take_while(|b| is_word_byte(**b)).count()
}

// Where the run of word bytes that holds `from` ends.
fn run_end(line: &[u8], from: usize) -> usize
    requires { (from < length line.now) × (word_byte (slice_index line.now from) ≡ true) }
    ensures { Run line.now from result }
{
    from + word_length(&line[from..])
}

// Whether the mark begins at the place; the line is passed whole, since places are counted in it. Two functions for two marks, since their contracts speak of two kinds of token.
fn is_arrow(line: &[u8], at: usize) -> bool
    requires { at < length line.now }
    ensures { Decides result (Lies line.now at (at + 2) arrow) }
{
    line[at..].starts_with(b"->")
}

fn is_bars(line: &[u8], at: usize) -> bool
    requires { at < length line.now }
    ensures { Decides result (Lies line.now at (at + 3) bars) }
{
    line[at..].starts_with(b"|||")
}
