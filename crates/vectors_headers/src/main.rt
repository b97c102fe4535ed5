// Takes packets one step each on list A's table, and prints the word that answers and the bytes that are left. The file stdout has what RFC 1071
// and RFC 1624 make of the headers, and the numbers of document 02.
#![tactic(auto)]

mod lend;
mod play;

use std::io;
use vectors_shared::onward::Onward;

fn main(rt: HostRuntime) -> io::Result<()> {
    let rt = Onward(rt);
    lend::standard(&rt)?;
    lend::small(&rt)
}
