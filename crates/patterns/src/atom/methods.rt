// Reading and filling atoms and sides.
ghost use Rattle.std.specs.Prelude.{◌≡◌, ◌≤◌, [], length};
ghost use Rattle.bounded.specs.Bounded.{items};
ghost use Rattle.patterns.specs.Tables.{Last, Pushed, Begun, Added};

use super::{Atom, Side};
use bounded::{Bounded, Full};
use tokens::token::Word;

impl<'a> Atom<'a> {
    fn new(predicate: Word<'a>) -> Atom<'a>
        ensures predicate { result.predicate ≡ predicate.entry }
        ensures empty { items result.words ≡ [] }
    {
        Atom {
            predicate,
            words: Bounded::new(predicate),
        }
    }

    pub fn predicate(&self) -> Word<'a>
        ensures { result ≡ self.now.predicate }
    {
        self.predicate
    }

    // The words in its brackets.
    pub fn words(&self) -> &[Word<'a>]
        ensures words { result.now ≡ items self.now.words }
        ensures few { length result.now ≤ 4 }
    {
        self.words.as_slice()
    }

    // One word more, unless there are four.
    fn push(&mut self, word: Word<'a>) -> Result<(), Full>
        ensures { Pushed self.old word.entry self.new result }
    {
        self.words.push(word)
    }
}

impl<'a> Side<'a> {
    // No atom yet; the word only fills the unused places.
    pub fn new(filler: Word<'a>) -> Side<'a>
        ensures { items result.atoms ≡ [] }
    {
        Side {
            atoms: Bounded::new(Atom::new(filler)),
        }
    }

    pub fn atoms(&self) -> &[Atom<'a>]
        ensures atoms { result.now ≡ items self.now.atoms }
        ensures few { length result.now ≤ 4 }
    {
        self.atoms.as_slice()
    }

    // The last atom, if there is one.
    pub fn into_last(self) -> Option<Atom<'a>>
        ensures { Last self.entry result }
    {
        let Side { mut atoms } = self;
        atoms.pop()
    }

    // One atom more, unless there are four.
    pub fn begin(&mut self, predicate: Word<'a>) -> Result<(), Full>
        ensures { Begun self.old predicate.entry self.new result }
    {
        self.atoms.push(Atom::new(predicate))
    }

    // One word more in the last atom, unless it has four.
    pub fn add(&mut self, word: Word<'a>) -> Result<(), Full>
        ensures { Added self.old word.entry self.new result }
    {
        let n = self.atoms.len();
        if n == 0 {
            return Ok(());
        }
        // Copied and put back: a loan of the atom would need a proof by hand.
        let last = n - 1;
        let mut atom = self.atoms()[last];
        let added = atom.push(word);
        self.atoms.set(last, atom);
        added
    }
}
