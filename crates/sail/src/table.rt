// The state of a table.
use crate::geometry::Geometry;

// The state: the geometry, and how many routes the list holds.
#[derive(Clone, Copy, Debug, PartialEq, Eq)]
pub struct Table {
    pub geometry: Geometry,
    pub count: u32,
}
