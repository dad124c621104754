// The questions on a line before its pattern: its length, its bytes, its words.
ghost use Rattle.std.specs.Prelude.{List};
ghost use Rattle.tokens.specs.Tokens.{Token as PlainToken, Tokens};
ghost use Rattle.patterns.specs.declared.state.Form.{Form};
ghost use Rattle.patterns.specs.Asking.Asked.{line_length, bytes, word_length};
ghost use Rattle.reading.specs.Lines.{Answers, Judged};

use questions::question::{Question, Refusal};
use tokens::bytes::first_stray;
use tokens::lexer::Lexer;
use tokens::token::Token;

const LONGEST_LINE: usize = 400;

const LONGEST_WORD: usize = 8;

pub fn check_length(line: &[u8]) -> Result<(), Refusal>
    ensures { (form : Form) → Answers form line.now line_length result }
{
    if line.len() > LONGEST_LINE {
        return Err(Question::LineLength.at(0));
    }
    Ok(())
}

pub fn check_bytes(line: &[u8]) -> Result<(), Refusal>
    ensures { (form : Form) → Answers form line.now bytes result }
{
    match first_stray(line) {
        Some(place) => Err(Question::Bytes.at(place)),
        None => Ok(()),
    }
}

fn check_word(token: Token) -> Result<(), Refusal>
    ensures { Judged token.entry result }
{
    match token {
        Token::Word(word) if word.text.len() > LONGEST_WORD => {
            Err(Question::WordLength.at(word.place))
        }
        _ => Ok(()),
    }
}

// The lexer cannot refuse a line whose bytes all belong to tokens or are blanks, so only a long word does. It is no iterator to go over: at a stray byte it stays and refuses again, and an iterator has to end.
pub fn check_words(line: &[u8]) -> Result<(), Refusal>
    ensures { (form : Form) (ts : List PlainToken) → Tokens line.now ts → Answers form line.now word_length result }
{
    let mut lexer = Lexer::new(line);
    while let Some(token) = lexer.next_token()? {
        check_word(token)?;
    }
    Ok(())
}
