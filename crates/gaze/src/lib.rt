// The declared types of the GAZE method: what the lines of a sheet say, and what is said of a chain sent in. Nothing is computed here but the list of
// the candidates.
// `kind` is a type number, of a feature or of a segment; 0 is BEGIN's and 1 is END's.

#![tactic(auto)]

ghost use Rattle.std.specs.Prelude.{◌≡◌};
ghost use Rattle.gaze.specs.Sheet.{candidates};

use arrayvec::ArrayVec;
use std::marker::Model;

// A point of a length penalty function.
#[derive(Clone, Copy, Default)]
pub struct Point {
    pub function: u32,
    pub distance: u32,
    pub penalty: i64,
}

// Which features forbid a pair: none; or those of one type that stand at one remainder, modulo 3, from the source or from the target.
#[derive(Clone, Copy, Default)]
pub enum Interruption {
    #[default]
    None,
    FromSource { kind: u32, remainder: u32 },
    FromTarget { kind: u32, remainder: u32 },
}

// What a pair of a source type and a target type has to meet, and its length penalty function.
#[derive(Clone, Copy, Default)]
pub struct Rule {
    pub source: u32,
    pub target: u32,
    pub min: u32,
    pub max: u32,
    pub phase: u32,
    pub interruption: Interruption,
    pub function: u32,
}

// Which segments score the region of a pair, and how.
#[derive(Clone, Copy, Default)]
pub struct Qualifier {
    pub source: u32,
    pub target: u32,
    pub kind: u32,
    pub method: u32,
    pub phase: u32,
    pub matching: u32,
}

// A scored site: a candidate for a chain.
#[derive(Clone, Copy, Default)]
pub struct Feature {
    pub kind: u32,
    pub position: u32,
    pub score: i64,
}

// A scored stretch of bases, both ends included. A host lends its own, laid out as in C.
#[repr(C)]
#[derive(Clone, Copy, Default)]
pub struct Segment {
    pub kind: u32,
    pub start: u32,
    pub end: u32,
    pub score: i64,
}

// A sheet that was accepted: how many bases the sequence has, and the P, R, Q, F and S lines in order, all in range.
#[derive(Drop)]
pub struct Sheet {
    pub bases: u32,
    pub points: ArrayVec<Point, 512>,
    pub rules: ArrayVec<Rule, 256>,
    pub qualifiers: ArrayVec<Qualifier, 256>,
    pub features: ArrayVec<Feature, 1024>,
    pub segments: ArrayVec<Segment, 1024>,
}

impl Model for Sheet {
    ghost use Rattle.gaze.specs.Sheet.{Sheet as Lines};

    ghost Value = { Lines };

    ghost use Rattle.gaze.specs.Lines.{lines_of, IsInRange};

    ghost view = { lines_of };

    ghost invariant = { IsInRange };
}

impl Sheet {
    // BEGIN, the features, END: what the numbers of a chain name.
    pub fn candidates(&self) -> ArrayVec<Feature, 1026>
        ensures { result.items ≡ candidates self.now }
    {
        let mut candidates = ArrayVec::new();
        candidates.push(Feature {
            kind: 0,
            position: 1,
            score: 0,
        });
        for feature in self.features.as_slice() {
            candidates.push(*feature);
        }
        candidates.push(Feature {
            kind: 1,
            position: self.bases,
            score: 0,
        });
        candidates
    }
}

// Why a list sent in as a chain has no score: it is no chain, or its first step that breaks the model, from 1.
#[derive(Clone, Copy, PartialEq, Eq)]
pub enum Fault {
    NoChain,
    BadStep(usize),
}
