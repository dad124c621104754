// Reads rule lines from standard input, and says of each that is turned away which question it fails, and where.
#![tactic(auto)]

use lines::Lines;
use reading::read::read_rule;
use std::io;
use std::io::Read;

const LIMIT: usize = 65_536;

fn report(rt: &HostRuntime, text: &[u8]) -> io::Result<()> {
    let mut lines = Lines::new(text);
    let mut refused: usize = 0;
    for line in &mut lines {
        if let Err(refusal) = read_rule(line.text) {
            println!(rt; "line {} {refusal}", line.number)?;
            refused += 1;
        }
    }
    println!(rt; "{} lines read, {refused} refused", lines.handed_out())
}

fn main(rt: HostRuntime) -> io::Result<()> {
    let mut input = Vec::new(rt.alloc());
    // One byte more than is taken shows that there are too many.
    rt.stdin().take(LIMIT as u64 + 1).read_to_end(&mut input)?;
    if input.len() > LIMIT {
        return println!(rt; "input too long");
    }
    report(&rt, &input)
}
