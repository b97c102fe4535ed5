// Lists of records: places, changes of one record, and whether a list holds routes and nothing else.
#![tactic(auto)]

pub mod edit;
pub mod place;
pub mod test;
