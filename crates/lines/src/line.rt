// A line of a text, with its number; lines count from 1. It borrows the text, and its newline is no part of it.
#[derive(Clone, Copy, Debug)]
pub struct NumberedLine<'a> {
    pub number: usize,
    pub text: &'a [u8],
}
