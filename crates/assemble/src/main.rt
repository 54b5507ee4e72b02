// Reads a sheet from standard input, and prints the reply to it and its best chain.

#![tactic(auto)]

use std::io;

fn main(rt: HostRuntime) -> io::Result<()> {
    let mut bytes = report::sheet_room();
    let size = report::read_full(&mut rt.reader(), &mut bytes)?;
    let mut out = report::report_room();
    let end = report::push_report(&mut out, 0, &bytes[..size]);
    rt.write_all(&out[..end])
}
