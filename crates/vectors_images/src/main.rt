// Runs the worked cases of images, most of them as scripts, and prints what they give: images built and looked up, tested, and changed in place.
// The file stdout has what documents 01 and 02 say of them: after each change the arrays are those of a fresh build of the routes then standing.
#![tactic(auto)]

mod broken;
mod built;
mod changes;
mod most;
mod play;
mod shown;

use std::io;
use vectors_shared::onward::Onward;

fn main(rt: HostRuntime) -> io::Result<()> {
    let rt = Onward(rt);
    built::list_a(&rt)?;
    built::host(&rt)?;
    built::sizes(&rt)?;
    built::broken(&rt)?;
    built::host_bits(&rt)?;
    changes::one_route(&rt)?;
    changes::branch(&rt)?;
    changes::room(&rt)?;
    changes::last(&rt)?;
    broken::tests(&rt)?;
    broken::nodes(&rt)?;
    broken::order(&rt)?;
    most::run(&rt)
}
