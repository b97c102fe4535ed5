// One image for one set of routes, on document 01's list A: by build and by its announcements in every order, with a detour and with a mark the
// arrays are the same to the byte; with another hop or another prefix they are not. The file stdout has what document 02 says of them.
#![tactic(auto)]

mod apart;
mod compare;
mod orders;

use std::io;
use vectors_shared::onward::Onward;

fn main(rt: HostRuntime) -> io::Result<()> {
    let rt = Onward(rt);
    orders::every(&rt)?;
    orders::detour(&rt)?;
    apart::marked(&rt)?;
    apart::hop(&rt)?;
    apart::prefix(&rt)
}
