// What is told of a position of a book: its rank.
#![tactic(auto)]

ghost use Rattle.std.specs.Prelude.{Decides};
ghost use Rattle.positions.specs.Positions.{KnownPosition, RankTold};

use book::book::Book;
use dependencies::edges;
use questions::question::{Question, Refusal};
use ranks::rank::Rank;
use ranks::ranks;

// The most columns of a predicate.
const COLUMNS: usize = 4;

// Whether the position is a column of a known predicate.
fn is_known(book: &Book, position: usize) -> bool
    ensures { Decides result (KnownPosition book.now position) }
{
    book.predicate(position / COLUMNS)
        .is_some_and(|predicate| position % COLUMNS < predicate.columns)
}

// The rank of a known position, or that it is infinite. A position that is not known is refused.
pub fn rank(book: &Book, position: usize) -> Result<Rank, Refusal>
    ensures { RankTold book.now position result }
{
    if !is_known(book, position) {
        return Err(Question::Known.at(0));
    }
    let table = edges(book.rules());
    let told = ranks(&table);
    Ok(told[position])
}
