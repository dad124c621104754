// Atoms and sides of a line: how a line that is read is kept, without a heap.
use bounded::Bounded;
use tokens::token::Word;

mod methods;

// The most atoms of a side, and the most words in an atom's brackets.
const MOST: usize = 4;

// A predicate and the words in its brackets.
#[derive(Clone, Copy, Debug)]
pub struct Atom<'a> {
    predicate: Word<'a>,
    words: Bounded<Word<'a>, MOST>,
}

// The atoms of one side of a rule, or the one atom of a fact.
#[derive(Clone, Copy, Debug)]
pub struct Side<'a> {
    atoms: Bounded<Atom<'a>, MOST>,
}
