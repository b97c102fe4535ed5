// The cells of a table painted again, where a prefix has changed.
#![tactic(auto)]

pub mod from_list;
pub mod part;
pub mod place;
pub mod pool;
pub mod repaint;
