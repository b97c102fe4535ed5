// Records of eight bytes, as a list and an input hold them.
#![tactic(auto)]

pub mod record;
