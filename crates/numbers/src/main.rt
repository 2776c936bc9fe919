// Answers each line of standard input, a question to a kind of number.
#![tactic(auto)]

use calculator::answer;
use std::io;
use std::io::{BufRead, BufReader};

fn main(rt: HostRuntime) -> io::Result<()> {
    let heap = rt.alloc();
    for line in BufReader::new(heap, rt.stdin())?.lines(heap) {
        let line = line?;
        println!(rt; "{}", answer(heap, line.as_str())?)?;
    }
    Ok(())
}
