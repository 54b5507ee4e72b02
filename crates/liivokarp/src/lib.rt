// The library that a host links. Every public function takes whatever is lent and answers with a reply; its contract says which, by the rows of the
// table of replies.

#![tactic(auto)]

ghost use Rattle.std.specs.Prelude.{◌≡◌};
ghost use Rattle.liivokarp.specs.Replies.{Assembles, ScoresChain, ScoresRegion};
ghost use Rattle.liivokarp.specs.Outcomes.{reply_of, refusal_of};

use chains::Found;
use gaze::{Fault, Segment};
use records::Region;
use refusal::{Reason, Refusal};
use std::fmt;

#[repr(C)]
#[derive(Clone, Copy)]
pub struct Reply {
    pub number: u64,
    pub place: u64,
    pub score: i64,
    pub count: u64,
}

// As the programs print it.
impl fmt::Display for Reply {
    fn fmt<W: fmt::Write>(&self, f: &mut fmt::Formatter<W>) -> fmt::Result {
        write!(
            f,
            "{} {} {} {}",
            self.number, self.place, self.score, self.count
        )
    }
}

// On a refusal score and count are 0.
fn reply_of(outcome: Result<Found, Refusal>) -> Reply
    ensures { result ≡ reply_of outcome }
{
    match outcome {
        Ok(found) => Reply {
            number: 0,
            place: 0,
            score: found.score,
            count: found.count as u64,
        },
        Err(refusal) => Reply {
            number: refusal.reason.number(),
            place: refusal.place,
            score: 0,
            count: 0,
        },
    }
}

// The best structure of a sheet, whose chain is written into the front of `chain`.
pub fn lk_assemble(sheet: &[u8], chain: &mut [u32]) -> Reply
    ensures { Assembles sheet.now chain.old result chain.new }
{
    reply_of(assemble(sheet, chain))
}

fn assemble(bytes: &[u8], chain: &mut [u32]) -> Result<Found, Refusal>
    ensures { Assembles bytes.now chain.old (reply_of result) chain.new }
{
    let sheet = sheet::read(bytes)?;
    if chain.len() < sheet.features.len() + 2 {
        return Err(Refusal {
            reason: Reason::NoRoom,
            place: 0,
        });
    }
    engine::best_chain(&sheet, chain).ok_or(Refusal {
        reason: Reason::NoStructure,
        place: 0,
    })
}

// The score of a chain that is lent, or why it has none.
pub fn lk_score_chain(sheet: &[u8], chain: &[u32]) -> Reply
    ensures { ScoresChain sheet.now chain.now result }
{
    reply_of(score_chain(sheet, chain))
}

fn score_chain(bytes: &[u8], chain: &[u32]) -> Result<Found, Refusal>
    ensures { ScoresChain bytes.now chain.now (reply_of result) }
{
    let sheet = sheet::read(bytes)?;
    match engine::judge(&sheet, chain) {
        Ok(score) => Ok(Found {
            score,
            count: chain.len(),
        }),
        Err(fault) => Err(refusal_of(fault)),
    }
}

fn refusal_of(fault: Fault) -> Refusal
    ensures { result ≡ refusal_of fault }
{
    match fault {
        Fault::NoChain => Refusal {
            reason: Reason::NoChain,
            place: 0,
        },
        Fault::BadStep(step) => Refusal {
            reason: Reason::BadStep,
            place: step as u64,
        },
    }
}

// The score of one region over segments that are lent as records.
pub fn lk_region_score(region: Region, records: &[Segment]) -> Reply
    ensures { ScoresRegion region records.now result }
{
    reply_of(records::region_score(region, records).map(|score| Found { score, count: 0 }))
}
