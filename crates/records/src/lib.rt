// The score of one region over records that a host lends as a slice of structs, by the scorer that serves a sheet. They are read where they stand.

#![tactic(auto)]

ghost use Rattle.std.specs.Prelude.{◌≡◌, None};
ghost use Rattle.records.specs.Records.{row_of, record_fault, checked};
ghost use Rattle.records.specs.Answers.{asked_by, region_answer};

use gaze::{Qualifier, Segment};
use kinds::Line;
use refusal::{Reason, Refusal};

// ---- what is wrong with the records

// A record's numbers in the order of an S line's fields.
#[tactic(auto, unfolding(crate::specs::Records::row_of))]
fn row_of(record: &Segment) -> [i64; 4]
    ensures { result ≡ row_of record.now }
{
    [
        i64::from(record.kind),
        i64::from(record.start),
        i64::from(record.end),
        record.score,
    ]
}

// What is wrong with a record after so many others, of which the last one is given. The first has none before it that it could be out of order with.
#[tactic(auto, unfolding(crate::specs::Records::record_fault, kinds::specs::Records::ranged))]
fn record_fault(passed: usize, before: Option<Segment>, record: &Segment) -> Option<Reason>
    ensures { result ≡ record_fault passed before record.now }
{
    if passed >= 1024 {
        return Some(Reason::Crowded);
    }
    if kinds::segment_of(row_of(record), 4_000_000).is_none() {
        return Some(Reason::Range);
    }
    kinds::disorder(before?.order(record))
}

// Refuses the first record at fault. One that is one too many is at fault, so that none behind it is read, however many are lent.
fn checked(records: &[Segment]) -> Result<(), Refusal>
    ensures { result ≡ checked 0 None records.now }
{
    let mut before = None;
    for (number, record) in records.iter().enumerate() {
        if let Some(reason) = record_fault(number, before, record) {
            return Err(Refusal {
                reason,
                place: number as u64 + 1,
            });
        }
        before = Some(*record);
    }
    Ok(())
}

// ---- their score

// A region from a source to a target position, and the Q line that scores it.
#[repr(C)]
#[derive(Clone, Copy)]
pub struct Region {
    pub source: u32,
    pub target: u32,
    pub kind: u32,
    pub method: u32,
    pub phase: u32,
    pub matching: u32,
}

// The region's Q line, where the region is in range: one of the pair BEGIN, END, since a segment score asks for no pair.
#[tactic(auto, unfolding(crate::specs::Answers::asked_by))]
fn asked_by(region: Region) -> Option<Qualifier>
    ensures { result ≡ asked_by region }
{
    if 1 <= region.source && region.source <= region.target && region.target <= 4_000_000 {
        kinds::qualifier_of([
            0,
            1,
            i64::from(region.kind),
            i64::from(region.method),
            i64::from(region.phase),
            i64::from(region.matching),
        ])
    } else {
        None
    }
}

// The score of a region, or the refusal of the region or of the first record at fault.
#[tactic(auto, unfolding(crate::specs::Answers::region_answer))]
pub fn region_score(region: Region, records: &[Segment]) -> Result<i64, Refusal>
    ensures { result ≡ region_answer region records.now }
{
    let q = asked_by(region).ok_or(Refusal {
        reason: Reason::Range,
        place: 0,
    })?;
    checked(records)?;
    Ok(segment::region_score(records, q, region.source, region.target))
}
