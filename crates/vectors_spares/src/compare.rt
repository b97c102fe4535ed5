// Images compared cell by cell, and what is printed of it: the hops in which they differ, or that they are the same.
use std::io;

pub fn told(same: bool) -> &'static str {
    if same { "same" } else { "differ" }
}

pub fn images(
    rt: &impl Print,
    label: &str,
    words: &[u32],
    hops: &[u16],
    other_words: &[u32],
    other_hops: &[u16],
) -> io::Result<()> {
    let same_words = told(words == other_words);
    let same_hops = told(hops == other_hops);
    print!(rt; "{label}: words {same_words} hops {same_hops}")?;
    for (i, (hop, other)) in hops.iter().zip(other_hops).enumerate() {
        if hop != other {
            print!(rt; " at {i}")?;
        }
    }
    println!(rt; "")
}
