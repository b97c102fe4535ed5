// Runs the worked cases of tables, as scripts, and prints what they give. The file stdout has what the documents say of them; of a repair
// it was worked out by hand from document 02's request. The counts and sums of the long runs were worked out apart from this code, from
// the same drawn numbers.
#![tactic(auto)]

mod by_hand;
mod long;
mod repairs;
mod runs;

use std::io;
use vectors_shared::onward::Onward;

fn main(rt: HostRuntime) -> io::Result<()> {
    let rt = Onward(rt);
    by_hand::list_a(&rt)?;
    by_hand::states(&rt)?;
    by_hand::damaged(&rt)?;
    by_hand::counted(&rt)?;
    runs::list_a(&rt)?;
    runs::one_chunk(&rt)?;
    runs::late_short(&rt)?;
    runs::nine_bytes(&rt)?;
    runs::states(&rt)?;
    runs::marks(&rt)?;
    runs::host_bits(&rt)?;
    runs::strict(&rt)?;
    repairs::list(&rt)?;
    repairs::counts(&rt)?;
    repairs::cells(&rt)?;
    repairs::refusals(&rt)?;
    repairs::renumbered(&rt)?;
    long::at_standard(&rt)?;
    long::at_small(&rt)
}
