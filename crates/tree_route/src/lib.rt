// One route in an image that was found well formed: the way down the path of its prefix, and what puts it in, replaces its hop or takes it out.
#![tactic(auto)]

pub mod change;
pub mod path;
