// The lexer: the tokens of a line one by one, from the left.
ghost use Rattle.std.specs.Prelude.{◌≡◌, ◌==◌, ◌<◌, ◌≤◌, length, MatchResult};
ghost use Rattle.std.specs.List.{prefix_len};
ghost use Rattle.questions.specs.declared.question.Question.TheVariants.{Bytes};
ghost use Rattle.tokens.specs.Tokens.{Byte, NothingAt};
ghost use Rattle.tokens.specs.Lexing.{place_of, Is, Blanks, Next};

use crate::token::{Token, Word};
use crate::{is_arrow, is_bars, is_word_byte, part, run_end};
use questions::question::{Question, Refusal};

// How many of the bytes, from the first on, are blanks. Not one function with `word_length` over a test: its contract would be longer than both chains.
fn blanks(bytes: &[u8]) -> usize
    ensures count { result ≡ prefix_len (λ b. b == 32) bytes.now }
    ensures fits { result ≤ length bytes.now }
{
    bytes.iter().take_while(|b| **b == b' ').count()
}

// Where the blanks from `at` on end.
fn skip_blanks(line: &[u8], at: usize) -> usize
    requires { at ≤ length line.now }
    ensures blanks { Blanks line.now at result }
    ensures all { Byte line.now result 32 → ⊥ }
{
    at + blanks(&line[at..])
}

// The token at a place where no blank stands, and where it ends.
fn token_at<'a>(line: &'a [u8], place: usize) -> Result<(Token<'a>, usize), Refusal>
    requires { (place < length line.now) × ((Byte line.now place 32 → ⊥)) }
    ensures { MatchResult result (λ t. Is line.entry place t.1 t.0) (λ e. (e.question ≡ Bytes) × (e.place ≡ place) × NothingAt line.now place) }
{
    match line[place] {
        b'(' => Ok((Token::Open(place), place + 1)),
        b')' => Ok((Token::Close(place), place + 1)),
        b',' => Ok((Token::Comma(place), place + 1)),
        b'.' => Ok((Token::Stop(place), place + 1)),
        b'-' if is_arrow(line, place) => Ok((Token::Arrow(place), place + 2)),
        b'|' if is_bars(line, place) => Ok((Token::Bars(place), place + 3)),
        b if is_word_byte(b) => {
            let end = run_end(line, place);
            let text = part(line, place, end);
            Ok((Token::Word(Word { text, place }), end))
        }
        _ => Err(Question::Bytes.at(place)),
    }
}

// A line, and the place up to which it has been read.
#[derive(Drop)]
pub struct Lexer<'a> {
    line: &'a [u8],
    at: usize,
    ghost ok: { at ≤ length line.now },
}

impl<'a> Lexer<'a> {
    pub fn new(line: &'a [u8]) -> Lexer<'a>
        ensures line { result.line ≡ line.entry }
        ensures at { result.at ≡ 0 }
    {
        Lexer { line, at: 0 }
    }

    // The next token, or none at the line's end. At a byte that belongs to no token it refuses, and stays there.
    pub fn next_token(&mut self) -> Result<Option<Token<'a>>, Refusal>
        ensures line { self.new.line ≡ self.old.line }
        ensures next { Next self.old.line self.old.at self.new.at result }
    {
        let line = self.line;
        let place = skip_blanks(line, self.at);
        self.at = place;
        if place == line.len() {
            return Ok(None);
        }
        let (token, end) = token_at(line, place)?;
        self.at = end;
        Ok(Some(token))
    }
}

// Here and not in the enum's own file, which specs cite and which so cites none.
impl<'a> Token<'a> {
    pub fn place(&self) -> usize
        ensures { result ≡ place_of self.now }
    {
        match *self {
            Token::Word(word) => word.place,
            Token::Bars(place)
            | Token::Arrow(place)
            | Token::Open(place)
            | Token::Close(place)
            | Token::Comma(place)
            | Token::Stop(place) => place,
        }
    }
}
