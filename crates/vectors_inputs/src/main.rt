// Runs the worked cases of record inputs, and prints what they give: masks, records and their check, runs, tallies, printed text, and directed
// broadcast, of which a line has an address and what versions 1 and 2 say of it, or a version and its refusal. The file stdout has what the
// documents and RFC 3021 say of them.
#![tactic(auto)]

mod casts;
mod inputs;
mod lines;
mod masks;
mod parts;
mod samples;
mod told;

use std::io;
use vectors_shared::onward::Onward;

fn main(rt: HostRuntime) -> io::Result<()> {
    let rt = Onward(rt);
    masks::run(&rt)?;
    inputs::run(&rt)?;
    inputs::attached(&rt)?;
    inputs::refusals(&rt)?;
    inputs::most(&rt)?;
    inputs::host_bits(&rt)?;
    parts::run(&rt)?;
    parts::tallies(&rt)?;
    parts::attached(&rt)?;
    parts::host_bits(&rt)?;
    lines::attached(&rt)?;
    casts::run(&rt)
}
