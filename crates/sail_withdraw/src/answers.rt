// What withdraw answers. The state goes in by value and comes back.
use sail::table::Table;

// What a withdrawal answers: the route was removed, and whether bits after the length were cleared; or a refusal's number.
#[derive(Clone, Copy)]
pub enum Withdraw {
    Removed(bool),
    Refused(u8),
}

#[derive(Clone, Copy)]
pub struct Withdrawn {
    pub answer: Withdraw,
    pub table: Table,
}
