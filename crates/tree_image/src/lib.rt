// What an image is and what a lookup in it says: definitions, laws, and the type of an answer. The code of the lookup is `tree`.
#![tactic(auto)]

// How much of an image's arrays is in use.
#[derive(Clone, Copy, Debug, PartialEq, Eq)]
pub struct Used {
    pub nodes: u32,
    pub hops: u32,
}
