// Whether what is lent with a table has the sizes that its geometry asks for.
#![tactic(auto)]

ghost use Rattle.std.specs.Prelude.{◌≡◌};
ghost use Rattle.refusals.specs.Numbers.{fault_of};
ghost use Rattle.sail.specs.Geometry.{Valid};
ghost use Rattle.sail.specs.Arrays.{lent_by};
ghost use Rattle.sail.specs.Sizes.{lengths_fit, SizesTold};

use refusals::Refusal;
use sail::arrays::Arrays;
use sail::geometry::Geometry;
use sail::table::Table;

// Whether the arrays have the lengths that the geometry asks for.
fn fits(g: Geometry, a: Arrays) -> bool
    requires { Valid g }
    ensures { result ≡ lengths_fit g (lent_by a.entry) }
{
    if a.list.len() % 8 != 0 {
        return false;
    }
    if 32768 < a.list.len() {
        return false;
    }
    if a.first.len() != g.first_cells() {
        return false;
    }
    if 4096 < a.own2.len() {
        return false;
    }
    if a.second.len() != a.own2.len() * g.second_chunk() {
        return false;
    }
    if 4096 < a.own3.len() {
        return false;
    }
    if a.third.len() != a.own3.len() * g.third_chunk() {
        return false;
    }
    if a.long1.len() != a.first.len() {
        return false;
    }
    a.long2.len() == a.second.len()
}

// 1 where the geometry is outside the limits, 2 where a lent array has another size than it asks for.
pub fn check_sizes(t: Table, a: Arrays) -> Result<(), Refusal>
    ensures { SizesTold (fault_of result) t.geometry (lent_by a.entry) }
{
    if !t.geometry.valid() {
        return Err(Refusal::Geometry);
    }
    if !fits(t.geometry, a) {
        return Err(Refusal::Size);
    }
    Ok(())
}
