// Whether arrays have the room for an image: refusals 11 and 12, for a build and for an announcement alike.
#![tactic(auto)]

ghost use Rattle.refusals.specs.Numbers.{fault_of};
ghost use Rattle.tree_room.specs.Lack.{Lack};

use refusals::Refusal;

// What so many words and hops lack for an image of so many nodes and routes: 11 where they are too few whole nodes, 12 where the hops are too few.
pub fn lack(words: usize, hops: usize, nodes: usize, routes: usize) -> Result<(), Refusal>
    ensures { Lack words hops nodes routes (fault_of result) }
{
    if words / 3 < nodes {
        return Err(Refusal::Nodes);
    }
    if hops < routes {
        return Err(Refusal::Hops);
    }
    Ok(())
}
