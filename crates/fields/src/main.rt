// Reads a motion script from standard input and prints its fields, or why it is refused.
#![tactic(auto)]

use listing::report;
use std::io;

fn main(rt: HostRuntime) -> io::Result<()> {
    let heap = rt.alloc();
    let text = whole_input::read_messages(heap, rt.stdin())?;
    rt.write_all(report(heap, &text)?.as_slice())
}
