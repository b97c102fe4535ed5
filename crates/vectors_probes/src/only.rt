// Whether what is lent is the table of one route, 10.1.2.0/24 to hop 44, with one second chunk and no third.
use sail::arrays::Arrays;
use std::io;

const RECORD: [u8; 8] = [10, 1, 2, 0, 24, 0, 0, 44];

fn told(same: bool) -> &'static str {
    if same { "unchanged" } else { "changed" }
}

// The record, and zeros after it.
fn records(list: &[u8]) -> &'static str {
    let same = list
        .iter()
        .enumerate()
        .all(|(i, b)| *b == RECORD.get(i).copied().unwrap_or(0));
    told(same)
}

// Cells of a value, but for one place.
fn cells(list: &[u16], value: u16, at: usize, there: u16) -> &'static str {
    told(
        list.iter()
            .enumerate()
            .all(|(i, cell)| *cell == if i == at { there } else { value }),
    )
}

// A pool and its owners: one chunk, in which cell 2 is the route's leaf.
fn pool(rt: &impl Print, list: &[u16], own: &[u32]) -> io::Result<()> {
    let owners = told(own.iter().all(|owner| *owner == 2562));
    println!(rt; "pool {} owners {owners}", cells(list, 32768, 2, 32812))
}

// First cell 2561 names the chunk and has one long route; no second cell has one. The third pool is empty.
pub fn only_24(rt: &impl Print, a: Arrays) -> io::Result<()> {
    println!(rt;
        "list {} first {}",
        records(a.list),
        cells(a.first, 32768, 2561, 1)
    )?;
    pool(rt, a.second, a.own2)?;
    pool(rt, a.third, a.own3)?;
    println!(rt;
        "counts {} {}",
        cells(a.long1, 0, 2561, 1),
        cells(a.long2, 0, 0, 0)
    )
}
