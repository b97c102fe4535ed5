// What the calls on an image answer, and what its arrays hold: of each node the bits in hexadecimal, and both bases.
use numbered::Numbered;
use refusals::Refusal;
use routes::found::Found;
use std::io;
use tree_image::Used;
use tree_theory::{Announced, Change};
use vectors_shared::shown::Numbers;

// A call, and how much is then in use, or why it is refused.
fn used<E: Numbered>(rt: &impl Print, call: &str, answer: Result<Used, E>) -> io::Result<()> {
    match answer {
        Ok(Used { nodes, hops }) => println!(rt; "{call} nodes {nodes} hops {hops}"),
        Err(why) => {
            let e = why.by_number();
            println!(rt; "{call} {e}")
        }
    }
}

pub fn built<E: Numbered>(rt: &impl Print, answer: Result<Used, E>) -> io::Result<()> {
    used(rt, "image", answer)
}

pub fn found(rt: &impl Print, answer: Result<Found, Refusal>) -> io::Result<()> {
    match answer {
        Ok(
            Found {
                hop: Some(hop),
                reads,
            },
        ) => println!(rt; "tree hop {hop} reads {reads}"),
        Ok(Found { hop: None, reads }) => println!(rt; "tree no route reads {reads}"),
        Err(why) => println!(rt; "tree {why}"),
    }
}

pub fn tested(rt: &impl Print, answer: Result<Used, Refusal>) -> io::Result<()> {
    used(rt, "test", answer)
}

pub fn announced<E: Numbered>(rt: &impl Print, answer: Result<Announced, E>) -> io::Result<()> {
    match answer {
        Ok(
            Announced {
                change: Change::Added,
                used: in_use,
            },
        ) => used::<E>(rt, "announce added", Ok(in_use)),
        Ok(
            Announced {
                change: Change::Replaced,
                used: in_use,
            },
        ) => used::<E>(rt, "announce replaced", Ok(in_use)),
        Err(why) => used(rt, "announce", Err(why)),
    }
}

pub fn withdrawn<E: Numbered>(rt: &impl Print, answer: Result<Used, E>) -> io::Result<()> {
    used(rt, "withdraw", answer)
}

pub fn image(rt: &impl Print, words: &[u32], hops: &[u16]) -> io::Result<()> {
    print!(rt; "words")?;
    for node in words.chunks(3) {
        for (place, word) in node.iter().enumerate() {
            if place == 0 {
                print!(rt; " | {word:08x}")?;
            } else {
                print!(rt; " {word}")?;
            }
        }
    }
    println!(rt; "\nhops{}", Numbers(hops))
}

// The arrays as plain numbers.
pub fn numbers(rt: &impl Print, words: &[u32], hops: &[u16]) -> io::Result<()> {
    println!(rt; "words{}\nhops{}", Numbers(words), Numbers(hops))
}
