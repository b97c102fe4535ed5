// Runs worked cases of the bit maps, and prints what they give. The file stdout has what document 02 and the figure of source document
// 000 say of them.
#![tactic(auto)]

mod case;
mod damage;
mod maps;
mod refused;
mod say;

use std::io;
use vectors_shared::onward::Onward;

fn main(rt: HostRuntime) -> io::Result<()> {
    let rt = Onward(rt);
    maps::figure(&rt)?;
    maps::list_a(&rt)?;
    maps::no_default(&rt)?;
    damage::bits(&rt)?;
    damage::cells(&rt)?;
    damage::many(&rt)?;
    refused::sizes(&rt)?;
    refused::order(&rt)?;
    refused::many(&rt)
}
