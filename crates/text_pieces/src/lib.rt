// Text on a page, which is a lent buffer: bytes, words, numbers in decimal, addresses. Each call writes at the page's place, which then
// stands after its text.
#![tactic(auto)]

pub mod page;
