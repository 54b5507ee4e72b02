// The shortest sheets, and those that are too long for worked examples, written into a buffer and read: as many F lines as there may be and one more, and as many bytes as a sheet may
// have and one more. Each case prints its groups, its size, and the number and place of its reading.

#![tactic(auto)]

use arrayvec::ArrayVec;
use std::io;
use std::io::Write;

// More than any sheet here needs.
type Text = ArrayVec<u8, 70000>;

fn show(rt: &impl Print, group: &str, bytes: &[u8]) -> io::Result<()> {
    let (number, place) = match sheet::read(bytes) {
        Ok(_) => (0, 0),
        Err(refusal) => (refusal.reason.number(), refusal.place),
    };
    println!(rt; "{group}{} bytes: {number} {place}", bytes.len())
}

// Lines that differ in one number, which rises from `first` on.
fn write_lines(
    text: &mut Text,
    before: &str,
    first: u32,
    count: u32,
    after: &str,
) -> io::Result<()> {
    for i in 0..count {
        writeln!(text, "{before} {} {after}", first as u64 + i as u64)?;
    }
    Ok(())
}

fn features(rt: &impl Print, count: u32, last: &str) -> io::Result<()> {
    let mut text = Text::new();
    writeln!(text, "L 4000000")?;
    let f = text.len();
    write_lines(&mut text, "F 2", 1000000, count, "0")?;
    write!(text, "{last}")?;
    let end = text.len();
    writeln!(text, "T {f} {f} {f} {f} {end}")?;
    show(rt, "F, ", text.as_slice())
}

// A sheet of nearly as many bytes as may be, in which `longer` of the points have one digit more.
fn crowded(rt: &impl Print, longer: u32) -> io::Result<()> {
    if longer > 512 {
        return Ok(());
    }
    let mut text = Text::new();
    writeln!(text, "L 4000000")?;
    let p = text.len();
    write_lines(&mut text, "P 16", 1000000, longer, "100000")?;
    write_lines(&mut text, "P 16", 2000000, 512 - longer, "10000")?;
    let f = text.len();
    write_lines(&mut text, "F 31", 1000000, 1024, "-10000000")?;
    let s = text.len();
    write_lines(&mut text, "S 15", 1000000, 1024, "4000000 -10000000")?;
    writeln!(text, "T {p} {f} {f} {f} {s}")?;
    show(rt, "P F S, ", text.as_slice())
}

fn main(rt: HostRuntime) -> io::Result<()> {
    show(&rt, "", b"")?;
    show(&rt, "", b"\n")?;
    features(&rt, 1024, "")?;
    features(&rt, 1024, "F 2 4000000 0\n")?;
    features(&rt, 1024, "F 32 4000001 0\n")?;
    features(&rt, 1024, "F 2 1 0\n")?;
    features(&rt, 1024, "F 2 4000000\n")?;
    features(&rt, 1023, "F 2 1000000 0\n")?;
    crowded(&rt, 0)?;
    crowded(&rt, 473)?;
    crowded(&rt, 474)?;
    Ok(())
}
