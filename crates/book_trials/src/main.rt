// Tries books of rules: adds each line of two inputs to a book, and runs a table of calls on one. Tells what comes of each.
#![tactic(auto)]

use book::book::Book;
use dependencies::affected;
use lines::{Lines, NumberedLine};
use positions::rank;
use ranks::rank::Rank;
use std::io::Read;
use std::{fs, io};

const LIMIT: u64 = 65_536;

// The lines that are turned away, and at the end how many rules stand and how many predicates are known.
fn report(rt: &HostRuntime, text: &[u8]) -> io::Result<()> {
    let mut book = Book::new(rt.alloc())?;
    for line in Lines::new(text) {
        if let Err(refusal) = book.add(line.text) {
            println!(rt; "line {} {refusal}", line.number)?;
        }
    }
    let rules = book.rules().len();
    let predicates = book.predicates();
    println!(rt; "{rules} rules stand, {predicates} predicates known")
}

fn told(rt: &HostRuntime, position: usize, rank: Rank, affected: bool) -> io::Result<()> {
    let mark = if affected { " affected" } else { "" };
    println!(rt; "position {position} {rank}{mark}")
}

// The rank of each known position, and whether it is affected; how many are refused, up to some past the last.
fn positions_of(rt: &HostRuntime, book: &Book) -> io::Result<()> {
    let table = affected(book.rules());
    let mut unknown: usize = 0;
    for position in 0..130 {
        match rank(book, position) {
            Ok(rank) => told(rt, position, rank, table.get(position) == Some(&true))?,
            Err(_) => unknown += 1,
        }
    }
    println!(rt; "{unknown} positions not known")
}

// A minus withdraws the label behind it; any other byte adds the line behind it; a line with no byte asks for the positions.
fn call(rt: &HostRuntime, book: &mut Book, line: NumberedLine) -> io::Result<()> {
    let outcome = match line.text {
        [] => return positions_of(rt, book),
        [b'-', label @ ..] => book.withdraw(label),
        [_, rule @ ..] => book.add(rule),
    };
    match outcome {
        Ok(()) => println!(rt; "line {} taken", line.number),
        Err(refusal) => println!(rt; "line {} {refusal}", line.number),
    }
}

fn book_calls(rt: &HostRuntime, text: &[u8]) -> io::Result<()> {
    println!(rt; "book")?;
    let mut book = Book::new(rt.alloc())?;
    for line in Lines::new(text) {
        call(rt, &mut book, line)?;
    }
    Ok(())
}

fn main(rt: HostRuntime) -> io::Result<()> {
    let mut text = Vec::new(rt.alloc());
    rt.stdin().take(LIMIT).read_to_end(&mut text)?;
    report(&rt, &text)?;
    let full = fs::read(&rt, "full.rules")?;
    report(&rt, &full)?;
    let calls = fs::read(&rt, "book-calls.txt")?;
    book_calls(&rt, &calls)
}
