// The build of a tree bitmap image from a record input.
#![tactic(auto)]

ghost use Rattle.tree_build.specs.Contract.{MeetsBuild};

use input_check::input::check_input;
use refusals::Refused;
use tree_fill::fill_image;
use tree_image::Used;
use tree_node::count::count_nodes;
use tree_room::lack;

// Builds the image of a record input, where the arrays have the room for it. A refusal leaves both arrays as they were.
pub fn build(input: &[u8], words: &mut [u32], hops: &mut [u16]) -> Result<Used, Refused>
    ensures { MeetsBuild input.now words.old hops.old result words.new hops.new }
{
    let routes = check_input(input)?;
    let nodes = count_nodes(input, routes);
    lack(words.len(), hops.len(), nodes, routes)?;
    fill_image(input, words, hops);
    Ok(Used {
        nodes: nodes as u32,
        hops: routes as u32,
    })
}
