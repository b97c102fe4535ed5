// A route put to an image that was found well formed, or a prefix taken from it: what speaks against it is told (6, 11, 12, or 9), and where nothing
// does the image is changed.
#![tactic(auto)]

ghost use Rattle.std.specs.Prelude.{◌≡◌};
ghost use Rattle.routes.specs.Route.{Fine, Prefix};
ghost use Rattle.tree_build.specs.Built.{image_out};
ghost use Rattle.tree_theory.specs.Changed.{means_tree_announced, means_tree_withdrawn, unmarked_route, image_put, image_taken};
ghost use Rattle.tree_theory.specs.Stages.{ImageFormed, New};

use refusals::Refusal;
use tree_check::hops_in;
use tree_image::Used;
use tree_room::lack;
use tree_route::change;
use tree_route::path::{Gap, seek};
use tree_theory::{Announced, Change};

// A prefix that does not stand: 6 where 4,096 routes stand, and 11 or 12 where there is no room.
fn put_new(
    words: &mut [u32],
    hops: &mut [u16],
    n: usize,
    k: usize,
    from: Gap,
    addr: u32,
    len: u32,
    hop: u16,
) -> Result<Announced, Refusal>
    requires { New words.old hops.old n k from.at from.depth addr len hop from.bit }
    ensures { image_out (means_tree_announced result) words.new hops.new ≡ image_put words.old hops.old addr len hop }
{
    if k >= 4096 {
        return Err(Refusal::Room);
    }
    let more = (len / 4 - from.depth) as usize;
    lack(words.len(), hops.len(), n + more, k + 1)?;
    let nodes = change::add(words, hops, n, k, from, addr, len, hop);
    Ok(Announced {
        change: Change::Added,
        used: Used {
            nodes: nodes as u32,
            hops: (k + 1) as u32,
        },
    })
}

// A fine route and a well-formed image.
pub fn put(
    words: &mut [u32],
    hops: &mut [u16],
    n: usize,
    addr: u32,
    len: u32,
    hop: u16,
) -> Result<Announced, Refusal>
    requires { ImageFormed words.old hops.old n × Fine (unmarked_route addr len hop) }
    ensures { image_out (means_tree_announced result) words.new hops.new ≡ image_put words.old hops.old addr len hop }
{
    let k = hops_in(words, n);
    match seek(words, n, addr, len) {
        Ok(spot) => {
            change::replace(words, hops, n, k, spot, addr, len, hop);
            Ok(Announced {
                change: Change::Replaced,
                used: Used {
                    nodes: n as u32,
                    hops: k as u32,
                },
            })
        }
        Err(gap) => put_new(words, hops, n, k, gap, addr, len, hop),
    }
}

// A proper prefix and a well-formed image: 9 where the prefix does not stand.
pub fn take(
    words: &mut [u32],
    hops: &mut [u16],
    n: usize,
    addr: u32,
    len: u32,
) -> Result<Used, Refusal>
    requires { ImageFormed words.old hops.old n × Prefix addr len }
    ensures { image_out (means_tree_withdrawn result) words.new hops.new ≡ image_taken words.old hops.old addr len }
{
    let k = hops_in(words, n);
    match seek(words, n, addr, len) {
        Ok(spot) => {
            let left = k - 1;
            let nodes = change::remove(words, hops, n, left, spot, addr, len);
            Ok(Used {
                nodes: nodes as u32,
                hops: left as u32,
            })
        }
        Err(_) => Err(Refusal::Absent),
    }
}
