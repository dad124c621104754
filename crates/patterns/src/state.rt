// Where the reader of a pattern stands.

#[derive(Clone, Copy, Debug, PartialEq, Eq)]
pub enum Form {
    Rule,
    Fact,
}

// Which atoms are being read: those of a rule's body or head, or the one of a fact.
#[derive(Clone, Copy, Debug, PartialEq, Eq)]
pub enum Section {
    Body,
    Head,
    Fact,
}

// Named by what must come next.
#[derive(Clone, Copy, Debug, PartialEq, Eq)]
pub enum State {
    Label,
    Bars,
    Name(Section),
    Open(Section),
    Word(Section),
    More(Section),
    After(Section),
    Done,
}
