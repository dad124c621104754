// The reader of a pattern: where it stands, and what it has kept. Words are kept as long as there is room for them.
ghost use Rattle.std.specs.Prelude.{◌≡◌};
ghost use Rattle.patterns.specs.Drafts.{Kept, Noted};

use crate::atom::Side;
use crate::state::{Section, State};
use bounded::Full;
use tokens::token::Word;

mod feeding;

// The words of a line in their tables.
#[derive(Clone, Copy, Debug)]
pub struct Tables<'a> {
    // of a fact line a filler, of no meaning; no line that is read has it
    pub label: Word<'a>,
    pub body: Side<'a>,
    pub head: Side<'a>,
}

#[derive(Clone, Copy, Debug)]
pub struct Reader<'a> {
    state: State,
    tables: Tables<'a>,
    // the place of the first word too many; nothing is kept from there on
    extra: Option<usize>,
}

impl<'a> Tables<'a> {
    // A word by the state in which it comes, unless it is one too many.
    fn keep(&mut self, state: State, word: Word<'a>) -> Result<(), Full>
        ensures { Kept state word.entry self.old self.new result }
    {
        match state {
            State::Label => {
                self.label = word;
                Ok(())
            }
            // A match within each: of alternatives in one pattern the check does not say which it was.
            State::Name(part) => match part {
                Section::Head => self.head.begin(word),
                Section::Body | Section::Fact => self.body.begin(word),
            },
            State::Word(part) => match part {
                Section::Head => self.head.add(word),
                Section::Body | Section::Fact => self.body.add(word),
            },
            _ => Ok(()),
        }
    }
}

impl<'a> Reader<'a> {
    // Keeps the word, or remembers the first that is one too many.
    fn note(&mut self, state: State, word: Word<'a>)
        ensures noted { Noted state word.entry self.old self.new }
        ensures state { self.new.state ≡ self.old.state }
    {
        if self.extra.is_none() && self.tables.keep(state, word).is_err() {
            self.extra = Some(word.place);
        }
    }
}
