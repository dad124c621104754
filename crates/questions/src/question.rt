// The 22 questions under their numbers, the four layers and the refusal. They stand in a file of their own, since specs/ cites them.

#[derive(Clone, Copy, Debug, PartialEq, Eq)]
pub enum Question {
    // Is the season unsealed?
    Unsealed = 1,
    // Is it sealed?
    Sealed = 2,
    // Has the line at most 400 bytes?
    LineLength = 3,
    // Does every byte belong to a token or a blank?
    Bytes = 4,
    // Has every word at most 8 bytes?
    WordLength = 5,
    // Do the tokens follow the pattern?
    Pattern = 6,
    // Are there at most four atoms a side, four words an atom's brackets?
    Counts = 7,
    // Is the label unused by standing rules?
    LabelUnused = 8,
    // Has each predicate its known columns, or those of its first atom in this line?
    Columns = 9,
    // Would at most 32 predicates be known?
    Predicates = 10,
    // Do fewer than 64 rules stand?
    Rules = 11,
    // Does a standing rule carry the label?
    LabelStands = 12,
    // Has each fact in the store a known predicate, its columns, and values up to 32,767?
    FactsKnown = 13,
    // Is the predicate known?
    PredicateKnown = 14,
    // Are the words in brackets decimal numbers up to 32,767?
    Numbers = 15,
    // Do the different facts not yet in the store fit its limit?
    Room = 16,
    // Are there as many values as body variables?
    ValueCount = 17,
    // Is each body atom, so valued, in the store?
    BodyStored = 18,
    // Is the trigger unmet?
    TriggerUnmet = 19,
    // Would at most 1,024 nulls have been born?
    Nulls = 20,
    // Has the witness buffer at least 5,104 steps?
    Buffer = 21,
    // Is the position, or the null, known?
    Known = 22,
}

#[derive(Clone, Copy, Debug, PartialEq, Eq)]
pub enum Layer {
    Reading,
    Store,
    Fill,
    Book,
}

// Why a call is turned away: the first question that answers no, and the place.
#[derive(Clone, Copy, Debug, PartialEq, Eq)]
pub struct Refusal {
    pub question: Question,
    pub place: usize,
}
