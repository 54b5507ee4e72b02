// The functions that a host calls from C or Rust: each is the library's function of the same name, under the same contract.

#![tactic(auto)]

ghost use Rattle.liivokarp.specs.Replies.{Assembles, ScoresChain, ScoresRegion};

use gaze::Segment;
use liivokarp::Reply;
use records::Region;

// The best structure of a sheet, whose chain is written into the front of `chain`.
#[unsafe(no_mangle)]
pub extern "C" fn lk_assemble(sheet: &[u8], chain: &mut [u32]) -> Reply
    ensures { Assembles sheet.now chain.old result chain.new }
{
    liivokarp::lk_assemble(sheet, chain)
}

// The score of a chain that is lent, or why it has none.
#[unsafe(no_mangle)]
pub extern "C" fn lk_score_chain(sheet: &[u8], chain: &[u32]) -> Reply
    ensures { ScoresChain sheet.now chain.now result }
{
    liivokarp::lk_score_chain(sheet, chain)
}

// The score of one region over segments that are lent as records.
#[unsafe(no_mangle)]
pub extern "C" fn lk_region_score(region: Region, records: &[Segment]) -> Reply
    ensures { ScoresRegion region records.now result }
{
    liivokarp::lk_region_score(region, records)
}
