// What announce answers. The state goes in by value and comes back.
use sail::table::Table;

// What an announcement answers: the route was added, or it replaced the one of a standing prefix, and whether bits after
// the length were cleared; or a refusal's number.
#[derive(Clone, Copy)]
pub enum Announce {
    Added(bool),
    Replaced(bool),
    Refused(u8),
}

#[derive(Clone, Copy)]
pub struct Announced {
    pub answer: Announce,
    pub table: Table,
}
