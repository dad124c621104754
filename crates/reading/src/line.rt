// Lines that passed the five questions that every line is put. Their words borrow the line.
use patterns::atom::{Atom, Side};
use tokens::token::Word;

// A rule line: `label||| body -> head.`
#[derive(Clone, Copy, Debug)]
pub struct RuleLine<'a> {
    pub label: Word<'a>,
    pub body: Side<'a>,
    pub head: Side<'a>,
}

// A fact line: one atom and a full stop.
#[derive(Clone, Copy, Debug)]
pub struct FactLine<'a> {
    pub atom: Atom<'a>,
}
