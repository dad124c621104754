// Words and tokens of a line.

// A word borrows the line.
#[derive(Clone, Copy, Debug, PartialEq, Eq)]
pub struct Word<'a> {
    pub text: &'a [u8],
    pub place: usize,
}

// A token that is no word is told by its place alone.
#[derive(Clone, Copy, Debug, PartialEq, Eq)]
pub enum Token<'a> {
    Word(Word<'a>),
    Bars(usize),
    Arrow(usize),
    Open(usize),
    Close(usize),
    Comma(usize),
    Stop(usize),
}
