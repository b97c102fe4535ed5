// What the worked cases of tables do beside the calls: numbers are drawn, a list is searched record by record, lookups are compared with
// that, and the arrays of a table are edited, shown and compared.
#![tactic(auto)]

pub mod draw;
pub mod edit;
pub mod linear;
pub mod looks;
pub mod only;
pub mod show;
