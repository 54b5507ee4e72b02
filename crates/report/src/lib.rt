// What is read and printed of a sheet: its bytes, the reply to it, and under the reply a line for each entry of its best chain.

#![tactic(auto)]

ghost use Rattle.std.specs.Prelude.{◌≡◌, ℕ, ◌-◌, ◌≤◌, ◌<◌, List, length, take, drop, IfOk, OnOk};
ghost use Rattle.std.specs.Io.KnownBytes.{Consumes, Appends, IsAtEnd};
ghost use Rattle.io.specs.Counts.{IsPrefixLen};

use arrayvec::ArrayVec;
use liivokarp::Reply;
use std::io;
use std::io::{ErrorKind, Read, Write};

// One byte more than a sheet may have, to tell a sheet that is too long.
pub fn sheet_room() -> [u8; 65537] {
    [0u8; 65537]
}

// One read, again where a signal interrupts it.
fn read_some<R: Read>(reader: &mut R, bytes: &mut [u8]) -> io::Result<usize>
    ensures same_length { length bytes.new ≡ length bytes.old }
    ensures within { IfOk result (λ n. IsPrefixLen n bytes.new) }
    ensures taken { IfOk result (λ n. Consumes (R.remaining reader.old) (R.remaining reader.new) (take n bytes.new)) }
    ensures all { IfOk result (λ n. n ≡ 0 → 0 < length bytes.new → IsAtEnd (R.remaining reader.new)) }
{
    // The count only bounds the loop, so that it ends; no run comes to it.
    for _ in 0..u64::MAX {
        match reader.read(bytes) {
            Ok(n) => return Ok(n),
            Err(e) => {
                if e.kind() != ErrorKind::Interrupted {
                    return Err(e);
                }
            }
        }
    }
    reader.read(bytes)
}

// Reads until there is no more room or the reader is at its end, however short each read is, and says how many bytes there are.
pub fn read_full<R: Read>(reader: &mut R, bytes: &mut [u8]) -> io::Result<usize>
    ensures same_length { length bytes.new ≡ length bytes.old }
    ensures within { IfOk result (λ n. IsPrefixLen n bytes.new) }
    ensures taken { IfOk result (λ n. Consumes (R.remaining reader.old) (R.remaining reader.new) (take n bytes.new)) }
    ensures all { IfOk result (λ n. n < length bytes.new → IsAtEnd (R.remaining reader.new)) }
{
    let mut done = 0;
    while done < bytes.len() {
        let n = read_some(reader, &mut bytes[done..])?;
        if n == 0 {
            break;
        }
        done += n;
    }
    Ok(done)
}

// A reply has at most 84 bytes, and each of the 1,026 lines that may stand under it at most 33.
pub type Report = ArrayVec<u8, 33942>;

pub fn report_room() -> [u8; 33942] {
    [0u8; 33942]
}

// Puts as much of a text behind the first `at` bytes as there is room for, and says where it ends.
fn push(out: &mut [u8], at: usize, text: &[u8]) -> usize
    requires { at ≤ length out.old }
    ensures within { IsPrefixLen result out.new }
    ensures kept { take at out.new ≡ take at out.old }
    ensures copied { drop at (take result out.new) ≡ take (length out.old - at) text.now }
{
    let count = (out.len() - at).min(text.len());
    let end = at + count;
    out[at..end].copy_from_slice(&text[..count]);
    end
}

pub fn push_reply(out: &mut [u8], at: usize, reply: Reply) -> usize
    requires { at ≤ length out.old }
    ensures within { IsPrefixLen result out.new }
    ensures kept { take at out.new ≡ take at out.old }
{
    let mut line = ArrayVec::<u8, 84>::new();
    // There is room for any reply, so that this does not fail.
    let _written = writeln!(line, "{reply}");
    push(out, at, line.as_slice())
}

pub fn push_report(out: &mut [u8], at: usize, bytes: &[u8]) -> usize
    requires { at ≤ length out.old }
    ensures within { IsPrefixLen result out.new }
    ensures kept { take at out.new ≡ take at out.old }
{
    let mut chain = [0u32; 1026];
    let reply = liivokarp::lk_assemble(bytes, &mut chain);
    push_answer(out, at, bytes, reply, &chain)
}

// Not inlined, so that the text does not stand on the stack while the chain is looked for.
#[inline(never)]
fn push_answer(out: &mut [u8], at: usize, bytes: &[u8], reply: Reply, chain: &[u32]) -> usize
    requires { at ≤ length out.old }
    ensures within { IsPrefixLen result out.new }
    ensures kept { take at out.new ≡ take at out.old }
{
    push(out, at, report_of(bytes, reply, chain).as_slice())
}

// Writes all of a report at once, or fails.
pub fn write_report<W: Write>(out: &mut W, bytes: &[u8]) -> io::Result<()>
    ensures { OnOk result ((text : List ℕ) × (length text ≤ 33942) × Appends (W.contents out.old) (W.contents out.new) text) }
{
    let mut chain = [0u32; 1026];
    let reply = liivokarp::lk_assemble(bytes, &mut chain);
    out.write_all(report_of(bytes, reply, &chain).as_slice())
}

// The reply to a sheet, and under it the chain that comes with it. The chain's buffer is as long as a chain can be.
fn report_of(bytes: &[u8], reply: Reply, chain: &[u32]) -> Report {
    let mut report = Report::new();
    // There is room for all lines, so that this does not fail.
    let _written = write_lines(&mut report, bytes, reply, chain);
    report
}

fn write_lines<W: Write>(out: &mut W, bytes: &[u8], reply: Reply, chain: &[u32]) -> io::Result<()> {
    writeln!(out, "{reply}")?;
    write_chain(out, bytes, chain, reply.count as usize)
}

// A line for each of the first `count` entries of a chain: its number, type and position.
fn write_chain<W: Write>(out: &mut W, bytes: &[u8], chain: &[u32], count: usize) -> io::Result<()> {
    let Ok(sheet) = sheet::read(bytes) else {
        return Ok(());
    };
    let candidates = sheet.candidates();
    for number in chain.iter().take(count) {
        let Some(candidate) = candidates.as_slice().get(*number as usize) else {
            return Ok(());
        };
        writeln!(out, "{number} {} {}", candidate.kind, candidate.position)?;
    }
    Ok(())
}
