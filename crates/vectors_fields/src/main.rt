// Route fields of BGP messages: list A written as one, and bytes that are fields, or none. The file stdout has what document 02 and RFC 4271 say of them.
#![tactic(auto)]

mod field;

use std::io;
use vectors_shared::onward::Onward;

fn main(rt: HostRuntime) -> io::Result<()> {
    let rt = Onward(rt);
    field::written(&rt)?;
    field::short(&rt)?;
    field::checked(&rt)
}
