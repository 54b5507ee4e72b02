// The bench values of the scope that are not proved as theorems, every reply at least once, and the sheets of the folder `data`. Each case prints its name
// and the reply; where the best chain was asked for, also how many entries of the lent buffer are as they were, or the whole report.

#![tactic(auto)]

ghost use Rattle.std.specs.Prelude.{◌≡◌, ◌≤◌, length, IfOk};
ghost use Rattle.io.specs.Counts.{IsPrefixLen};

use arrayvec::ArrayVec;
use liivokarp::Reply;
use std::io::Write;
use std::rt::Files;
use std::{array, fs, io};

// What a buffer is filled with. No candidate has this number.
const MARK: u32 = 4294967295;

// A sheet that is written here.
type Text = ArrayVec<u8, 65537>;

fn print_reply(rt: &impl Print, name: &str, reply: Reply) -> io::Result<()> {
    println!(rt; "{name}: {reply}")
}

fn print_report(rt: &impl Print, name: &str, bytes: &[u8]) -> io::Result<()> {
    let mut out = report::report_room();
    let end = report::push_report(&mut out, 0, bytes);
    println!(rt; "{name}:")?;
    rt.write_all(&out[..end])
}

fn assemble_into(rt: &impl Print, name: &str, bytes: &[u8], chain: &mut [u32]) -> io::Result<()> {
    let reply = liivokarp::lk_assemble(bytes, chain);
    print_reply(rt, name, reply)?;
    let kept = chain.iter().filter(|number| **number == MARK).count();
    println!(rt; "  as they were: {kept}")
}

fn assemble(rt: &impl Print, name: &str, bytes: &[u8]) -> io::Result<()> {
    let mut chain = [MARK; 1026];
    assemble_into(rt, name, bytes, &mut chain)
}

fn score(rt: &impl Print, name: &str, bytes: &[u8], chain: &[u32]) -> io::Result<()> {
    print_reply(rt, name, liivokarp::lk_score_chain(bytes, chain))
}

// No evidence, and one rule, from BEGIN to END.
fn empty(rt: &impl Print, name: &str, bases: u32, least: u32) -> io::Result<()> {
    let mut text = Text::new();
    writeln!(text, "L {bases}")?;
    let r = text.len();
    writeln!(text, "R 0 1 {least} 4000000 3 0 0 0 0")?;
    let q = text.len();
    writeln!(text, "T {r} {r} {q} {q} {q}")?;
    print_report(rt, name, text.as_slice())
}

// F lines from position 2 on.
fn write_features(text: &mut Text, count: u32, score: i64) -> io::Result<()> {
    for i in 0..count {
        writeln!(text, "F 2 {} {score}", i as u64 + 2)?;
    }
    Ok(())
}

// One way to END, past all features.
fn past(rt: &impl Print, name: &str, count: u32) -> io::Result<()> {
    let mut text = Text::new();
    writeln!(text, "L 4000000")?;
    let r = text.len();
    writeln!(text, "R 0 1 0 4000000 3 0 0 0 0")?;
    let f = text.len();
    write_features(&mut text, count, 0)?;
    let s = text.len();
    writeln!(text, "T {r} {r} {f} {f} {s}")?;
    assemble(rt, name, text.as_slice())
}

// One way to END, through all features.
fn forced(rt: &impl Print, name: &str, count: u32) -> io::Result<()> {
    let mut text = Text::new();
    writeln!(text, "L {}", count as u64 + 2)?;
    let r = text.len();
    writeln!(text, "R 0 2 1 1 3 0 0 0 0")?;
    writeln!(text, "R 2 1 1 1 3 0 0 0 0")?;
    writeln!(text, "R 2 2 1 1 3 0 0 0 0")?;
    let f = text.len();
    write_features(&mut text, count, -10000000)?;
    let s = text.len();
    writeln!(text, "T {r} {r} {f} {f} {s}")?;
    assemble(rt, name, text.as_slice())
}

// Segments of two bases, one from each of the first `count` positions.
fn write_spans(text: &mut Text, count: u32) -> io::Result<()> {
    for i in 0..count {
        let start = i as u64 + 1;
        writeln!(text, "S 0 {start} {} -10000000", start + 1)?;
    }
    Ok(())
}

// Two ways to END: at once, for a penalty of 7, or through all features, by `count` steps that have a span each.
fn write_spanned(text: &mut Text, count: u32) -> io::Result<()>
    requires { 1 ≤ count }
{
    writeln!(text, "L {}", count as u64 + 1)?;
    let p = text.len();
    writeln!(text, "P 1 0 7")?;
    let r = text.len();
    writeln!(text, "R 0 1 0 4000000 3 0 0 0 1")?;
    writeln!(text, "R 0 2 1 1 3 0 0 0 0")?;
    writeln!(text, "R 2 1 1 1 3 0 0 0 0")?;
    writeln!(text, "R 2 2 1 1 3 0 0 0 0")?;
    let q = text.len();
    writeln!(text, "Q 0 2 0 1 3 3")?;
    writeln!(text, "Q 2 1 0 1 3 3")?;
    writeln!(text, "Q 2 2 0 1 3 3")?;
    let f = text.len();
    write_features(text, count - 1, 0)?;
    let s = text.len();
    write_spans(text, count)?;
    writeln!(text, "T {p} {r} {q} {f} {s}")
}

// Every candidate of a sheet with so many steps.
fn score_all(rt: &impl Print, name: &str, bytes: &[u8], count: usize) -> io::Result<()>
    requires { count ≤ 1026 }
{
    let chain: [u32; 1026] = array::from_fn(|i| i as u32);
    score(rt, name, bytes, &chain[..count])
}

fn spanned(rt: &impl Print, best: &str, worst: &str, count: u32) -> io::Result<()>
    requires { (1 ≤ count) × (count ≤ 1024) }
{
    let mut text = Text::new();
    write_spanned(&mut text, count)?;
    assemble(rt, best, text.as_slice())?;
    score_all(rt, worst, text.as_slice(), count as usize + 1)
}

fn bench_values(rt: &impl Print) -> io::Result<()> {
    empty(rt, "length 1, distance 0 or more", 1, 0)?;
    empty(rt, "length 1, distance 1 or more", 1, 1)?;
    forced(rt, "300 features", 300)?;
    spanned(rt, "215 spans, the best", "215 spans, all of them", 215)?;
    spanned(rt, "1024 spans, the best", "1024 spans, all of them", 1024)?;
    assemble(rt, "0 bytes", b"")?;
    past(rt, "1024 F lines", 1024)?;
    past(rt, "1025 F lines", 1025)?;
    empty(rt, "length 4000000", 4000000, 0)?;
    empty(rt, "length 4000001", 4000001, 0)?;
    Ok(())
}

// What no bench value above is refused with, before any chain is looked for.
fn sheets_at_fault(rt: &impl Print) -> io::Result<()> {
    let long = report::sheet_room();
    assemble(rt, "65537 bytes", &long)?;
    assemble(rt, "no trailer", b"L 1\n")?;
    assemble(rt, "a field missing", b"L 9\nF 2 1\nT 4 4 4 4 10\n")?;
    assemble(rt, "out of order", b"L 9\nF 2 2 0\nF 2 1 0\nT 4 4 4 4 20\n")?;
    assemble(
        rt,
        "Q without its rule",
        b"L 9\nQ 2 3 0 1 3 0\nT 4 4 4 18 18\n",
    )?;
    assemble(
        rt,
        "function without a point",
        b"L 9\nR 0 1 0 9 3 0 0 0 1\nT 4 4 24 24 24\n",
    )?;
    score(rt, "no trailer, and a chain", b"L 1\n", &[0, 1])?;
    Ok(())
}

// Without a rule there is no valid chain; the buffer is looked at first.
fn no_valid_chain(rt: &impl Print) -> io::Result<()> {
    let bytes = b"L 1\nT 4 4 4 4 4\n";
    let mut one = [MARK; 1];
    assemble_into(rt, "no rule, room for 1", bytes, &mut one)?;
    let mut two = [MARK; 2];
    assemble_into(rt, "no rule, room for 2", bytes, &mut two)?;
    score(rt, "no rule, chain 0 1", bytes, &[0, 1])?;
    score(rt, "no rule, chain 0", bytes, &[0])?;
    Ok(())
}

fn rooms(rt: &impl Print, one: &[u8]) -> io::Result<()> {
    let mut five = [MARK; 5];
    assemble_into(rt, "sheet one, room for 5", one, &mut five)?;
    let mut six = [MARK; 6];
    assemble_into(rt, "sheet one, room for 6", one, &mut six)?;
    let mut seven = [MARK; 7];
    assemble_into(rt, "sheet one, room for 7", one, &mut seven)?;
    Ok(())
}

fn lent_chains(rt: &impl Print, one: &[u8]) -> io::Result<()> {
    score(rt, "sheet one, chain 0 1 3 5", one, &[0, 1, 3, 5])?;
    score(rt, "sheet one, chain 0 2 3 5", one, &[0, 2, 3, 5])?;
    score(rt, "sheet one, chain 0 5", one, &[0, 5])?;
    score(rt, "sheet one, chain 0 1 4 5", one, &[0, 1, 4, 5])?;
    score(rt, "sheet one, chain 0 3 5", one, &[0, 3, 5])?;
    score(rt, "sheet one, chain 0 1 3 4 5", one, &[0, 1, 3, 4, 5])?;
    Ok(())
}

fn lent_lists(rt: &impl Print, one: &[u8]) -> io::Result<()> {
    score(rt, "sheet one, nothing", one, &[])?;
    score(rt, "sheet one, 0", one, &[0])?;
    score(rt, "sheet one, 1 3 5", one, &[1, 3, 5])?;
    score(rt, "sheet one, 0 1 3", one, &[0, 1, 3])?;
    score(rt, "sheet one, 0 1 1 5", one, &[0, 1, 1, 5])?;
    score(rt, "sheet one, 0 4 1 5", one, &[0, 4, 1, 5])?;
    score(rt, "sheet one, 0 1 3 5 6", one, &[0, 1, 3, 5, 6])?;
    Ok(())
}

fn read_file(rt: &impl Files, name: &str, bytes: &mut [u8]) -> io::Result<usize>
    ensures within { IfOk result (λ n. IsPrefixLen n bytes.new) }
    ensures same_length { length bytes.new ≡ length bytes.old }
{
    let mut file = fs::open(rt, name)?;
    report::read_full(&mut file, bytes)
}

fn sheet_one(rt: &(impl Print + Files)) -> io::Result<()> {
    let mut bytes = report::sheet_room();
    let size = read_file(rt, "sheet_one.txt", &mut bytes)?;
    rooms(rt, &bytes[..size])?;
    lent_chains(rt, &bytes[..size])?;
    lent_lists(rt, &bytes[..size])?;
    Ok(())
}

fn sheet(rt: &(impl Print + Files), name: &str) -> io::Result<()> {
    let mut bytes = report::sheet_room();
    let size = read_file(rt, name, &mut bytes)?;
    print_report(rt, name, &bytes[..size])
}

fn sheets(rt: &(impl Print + Files)) -> io::Result<()> {
    sheet(rt, "sheet_one.txt")?;
    sheet(rt, "gene_1.txt")?;
    sheet(rt, "gene_2.txt")?;
    sheet(rt, "gene_3.txt")?;
    sheet(rt, "dense_1.txt")?;
    sheet(rt, "forced_300.txt")?;
    sheet(rt, "worst_int1.txt")?;
    sheet(rt, "worst_int2.txt")?;
    sheet(rt, "worst_m1.txt")?;
    sheet(rt, "worst_m1p.txt")?;
    sheet(rt, "worst_m2.txt")?;
    sheet(rt, "worst_m2p.txt")?;
    sheet(rt, "worst_m2s.txt")?;
    sheet(rt, "worst_m2t.txt")?;
    sheet(rt, "worst_m2x.txt")?;
    Ok(())
}

fn main(rt: HostRuntime) -> io::Result<()> {
    bench_values(&rt)?;
    sheets_at_fault(&rt)?;
    no_valid_chain(&rt)?;
    sheet_one(&rt)?;
    sheets(&rt)?;
    Ok(())
}
