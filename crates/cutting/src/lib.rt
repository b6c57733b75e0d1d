// The theory of cuttings, over any segment cost and any least length: `specs/` defines them, and `proofs/` has their laws.
// The code here is the rules' numbers alone, which `specs/Limits.antt` names for contracts.

#![tactic(auto)]

// "Observations n: 1 to 400."
pub const MOST_OBSERVATIONS: usize = 400;

// "Segment count asked for, Dmax: 1 to 12 and no more than n."
pub const MOST_SEGMENTS: usize = 12;

// "every segment is nonempty"
pub const LEAST_LENGTH: usize = 1;

// "Tables are little-endian entries of 8 and 2 bytes": the costs' and the starts'.
pub const COST_BYTES: usize = 8;

pub const START_BYTES: usize = 2;
