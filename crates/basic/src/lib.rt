// Basic SAIL for cards without chunk memory: bits and hop cells for lengths 0 to 16, and the record list for anything longer. The check of what is
// lent, and the bit and the cell of a prefix; what the calls say is in specs/.
#![tactic(auto)]

pub mod check;
pub mod maps;
