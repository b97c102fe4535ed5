// Announce and withdraw on an image itself, as definitions with their laws, and the type of an answer. The code is `tree_route`, `tree_put` and
// `tree_change`.
#![tactic(auto)]

use tree_image::Used;

// What announce did: the prefix was new, or it stood and its hop was replaced.
#[derive(Clone, Copy, Debug, PartialEq, Eq)]
pub enum Change {
    Added,
    Replaced,
}

// And how much of the arrays is then in use.
#[derive(Clone, Copy, Debug, PartialEq, Eq)]
pub struct Announced {
    pub change: Change,
    pub used: Used,
}
