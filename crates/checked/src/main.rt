// Reads a motion script from standard input, checks it for each kind of number, and prints the answers.
#![tactic(auto)]

use check_listing::report;
use std::io;

fn main(rt: HostRuntime) -> io::Result<()> {
    let heap = rt.alloc();
    let text = whole_input::read_messages(heap, rt.stdin())?;
    rt.write_all(report(heap, &text)?.as_slice())
}
