// Tries tables of lines, and tells what comes of each: rule lines, fact lines, and the word at each place of a line.
#![tactic(auto)]

use lines::Lines;
use questions::question::Refusal;
use reading::read::{read_fact, read_rule};
use reading::values::Values;
use std::{fs, io};
use tokens::words::word;

fn rule_lines(rt: &HostRuntime, text: &[u8]) -> io::Result<()> {
    println!(rt; "rule lines")?;
    for line in Lines::new(text) {
        let number = line.number;
        match read_rule(line.text) {
            Ok(_) => println!(rt; "line {number} taken")?,
            Err(refusal) => println!(rt; "line {number} {refusal}")?,
        }
    }
    Ok(())
}

// What a fact line comes to: its questions in order, and then whether its words are numbers.
fn fact_values(line: &[u8]) -> Result<Values, Refusal> {
    read_fact(line)?.values()
}

fn valued(rt: &HostRuntime, number: usize, values: &Values) -> io::Result<()> {
    print!(rt; "line {number} values")?;
    for n in values.as_slice() {
        print!(rt; " {n}")?;
    }
    println!(rt; "")
}

fn fact_lines(rt: &HostRuntime, text: &[u8]) -> io::Result<()> {
    println!(rt; "fact lines")?;
    for line in Lines::new(text) {
        let number = line.number;
        match fact_values(line.text) {
            Ok(values) => valued(rt, number, &values)?,
            Err(refusal) => println!(rt; "line {number} {refusal}")?,
        }
    }
    Ok(())
}

// The length of the word at each place of the line, and at one past its end.
fn words(rt: &HostRuntime, line: &[u8]) -> io::Result<()> {
    println!(rt; "words")?;
    for place in 0..=line.len() {
        let length = word(line, place).len();
        println!(rt; "place {place} length {length}")?;
    }
    Ok(())
}

fn main(rt: HostRuntime) -> io::Result<()> {
    let rules = fs::read(&rt, "rule-lines.txt")?;
    rule_lines(&rt, &rules)?;
    let facts = fs::read(&rt, "fact-lines.txt")?;
    fact_lines(&rt, &facts)?;
    words(&rt, b"m1||| card_2(p,")
}
