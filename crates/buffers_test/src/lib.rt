// Whether two lent arrays are the same, and whether a range of one is zero. What is said of them is said of lists of numbers, and so once
// for all widths. The loops are plain, so that they can be done many numbers at a time.
#![tactic(auto)]

pub mod same;
pub mod zeros;
