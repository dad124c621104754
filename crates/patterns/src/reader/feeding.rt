// Feeding the reader a line, token by token.
ghost use Rattle.std.specs.Prelude.{◌≡◌, ℕ, List, OnErr};
ghost use Rattle.std.specs.Borrow.{Bor};
ghost use Rattle.patterns.specs.Machine.{start};
ghost use Rattle.patterns.specs.Drafts.{Shows, Same, Advanced, Fed, Finished};

use super::{Reader, Tables};
use crate::atom::Side;
use crate::state::{Form, Section, State};
use questions::question::{Question, Refusal};
use tokens::token::{Token, Word};

impl<'a> Reader<'a> {
    pub fn new(form: Form) -> Reader<'a>
        ensures { (line : Bor (List ℕ)) → Shows line result (start form) 0 }
    {
        let filler = Word {
            text: b"",
            place: 0,
        };
        let state = match form {
            Form::Rule => State::Label,
            Form::Fact => State::Name(Section::Fact),
        };
        let tables = Tables {
            label: filler,
            body: Side::new(filler),
            head: Side::new(filler),
        };
        Reader {
            state,
            tables,
            extra: None,
        }
    }

    // The state machine of both patterns: rule lines and fact lines share the states of an atom.
    fn advance(&mut self, token: Token<'a>) -> Result<(), Refusal>
        ensures advanced { Advanced self.old token.entry self.new result }
        ensures same { Same self.old self.new }
        ensures unmoved { OnErr result (self.new ≡ self.old) }
    {
        self.state = match (self.state, token) {
            (State::Label, Token::Word(_)) => State::Bars,
            (State::Bars, Token::Bars(_)) => State::Name(Section::Body),
            (State::Name(part), Token::Word(_)) => State::Open(part),
            (State::Open(part), Token::Open(_)) => State::Word(part),
            (State::Word(part), Token::Word(_)) => State::More(part),
            (State::More(part), Token::Comma(_)) => State::Word(part),
            (State::More(part), Token::Close(_)) => State::After(part),
            (State::After(Section::Body), Token::Comma(_)) => State::Name(Section::Body),
            (State::After(Section::Head), Token::Comma(_)) => State::Name(Section::Head),
            (State::After(Section::Body), Token::Arrow(_)) => State::Name(Section::Head),
            (State::After(Section::Head), Token::Stop(_)) => State::Done,
            (State::After(Section::Fact), Token::Stop(_)) => State::Done,
            _ => return Err(Question::Pattern.at(token.place())),
        };
        Ok(())
    }

    // Takes the token, or says that it cannot stand there.
    pub fn feed(&mut self, token: Token<'a>) -> Result<(), Refusal>
        ensures fed { Fed self.old token.entry self.new result }
        ensures unmoved { OnErr result (self.new ≡ self.old) }
    {
        let state = self.state;
        self.advance(token)?;
        if let Token::Word(word) = token {
            self.note(state, word);
        }
        Ok(())
    }

    // What was kept, once the line of this length has come to its end.
    pub fn finish(self, len: usize) -> Result<Tables<'a>, Refusal>
        ensures { Finished self.entry len result }
    {
        self.finished(len)
    }

    // The same of a reader that is lent: its tables are large, and are copied once less.
    pub fn finished(&self, len: usize) -> Result<Tables<'a>, Refusal>
        ensures { Finished self.now len result }
    {
        if self.state != State::Done {
            return Err(Question::Pattern.at(len));
        }
        if let Some(place) = self.extra {
            return Err(Question::Counts.at(place));
        }
        Ok(self.tables)
    }
}
