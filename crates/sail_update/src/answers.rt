// What a message is answered with. The state goes in by value and comes back.
use sail::table::Table;

// What a message is answered with: so many entries, all of them; a refusal for room, and how many were dealt with before it; or
// a refusal of the whole. Entries are counted in 32 bits.
#[derive(Clone, Copy)]
pub enum Update {
    Done(u32),
    Stopped(u8, u32),
    Refused(u8),
}

#[derive(Clone, Copy)]
pub struct Updated {
    pub answer: Update,
    pub table: Table,
}
