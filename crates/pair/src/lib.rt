// Two parties in one box: what is lent for both, what their calls answer and leave, and the theorems on them. This crate has
// definitions and proofs, and no code but the types of the state: the calls are written and proved in the crates above it.
#![tactic(auto)]

use sail::geometry::Geometry;

// One party's share: how many routes its list holds, and how many chunks of either pool it may use.
#[derive(Clone, Copy)]
pub struct Share {
    pub count: u32,
    pub most2: u32,
    pub most3: u32,
}

// The state: the geometry of both, and a share for each.
#[derive(Clone, Copy)]
pub struct Pair {
    pub geometry: Geometry,
    pub one: Share,
    pub two: Share,
}
