// A load on a party's side of a sound box: its own three arrays, and the five that both share.
ghost use Rattle.std.specs.Prelude.{◌≡◌};
ghost use Rattle.sail.specs.Lent.{lent};
ghost use Rattle.pair.specs.Party.{party_of};
ghost use Rattle.pair_sound.specs.BoxTest.{Sight};
ghost use Rattle.pair_load.specs.Cleared.{top_of, freed, emptied, ClosableAll, ClearReady, SideCleared};
ghost use Rattle.pair_load.specs.SideLoads.{LoadReady, side_loaded};

use pair::Pair;
use pair_owners::view;
use sail::geometry::Geometry;
use sail_chunks::chunks::close;
use sail_owners::owners::open_between;
use sail_renew::lay;

// What a party adds to the owners that it writes: the top bit is the second party's.
fn top_of(guest: bool) -> u32
    ensures { result ≡ top_of (party_of guest) }
{
    if guest {
        return 2147483648;
    }
    0
}

// Closes each chunk that is in use among `see`: its owner and its 2^d cells become 0. All other chunks stay.
fn close_all(see: &[u32], own: &mut [u32], cells: &mut [u16], d: u32)
    requires { ClosableAll see.now own.old cells.old d }
    ensures owner { own.new ≡ freed see.now own.old }
    ensures blank { cells.new ≡ emptied see.now d cells.old }
{
    for c in 0..see.len() {
        close(own, cells, see[c] != 0, c, d);
    }
}

// Closes the party's chunks in both pools, with their counts. `see2` and `see3` are room for the owners as it sees them.
fn clear_side(
    g: Geometry,
    second: &mut [u16],
    third: &mut [u16],
    own2: &mut [u32],
    own3: &mut [u32],
    long2: &mut [u16],
    guest: bool,
    see2: &mut [u32],
    see3: &mut [u32],
)
    requires clear_ready { ClearReady g second.old third.old own2.old own3.old long2.old }
    requires sight { Sight own2.old own3.old see2.old see3.old }
    ensures { SideCleared (party_of guest) g second.old third.old own2.old own3.old long2.old
        second.new third.new own2.new own3.new long2.new }
{
    let d2 = g.p2 - g.p1;
    let d3 = 32 - g.p2;
    view(own2, guest, see2);
    view(own3, guest, see3);
    close_all(see2, own2, second, d2);
    close_all(see2, own2, long2, d2);
    close_all(see3, own3, third, d3);
}

// The routes of the input in the party's table: its chunks are closed, those of the input's routes opened between the other's,
// and the list, cells and counts laid over them. `see2` and `see3` are room for the owners as it sees them.
fn write_side(
    t: Pair,
    list: &mut [u8],
    first: &mut [u16],
    long1: &mut [u16],
    second: &mut [u16],
    third: &mut [u16],
    own2: &mut [u32],
    own3: &mut [u32],
    long2: &mut [u16],
    guest: bool,
    input: &[u8],
    see2: &mut [u32],
    see3: &mut [u32],
)
    requires load_ready { LoadReady (party_of guest) t
        (lent list.old first.old second.old third.old own2.old own3.old long1.old long2.old) input.now }
    requires sight { Sight own2.old own3.old see2.old see3.old }
    ensures { lent list.new first.new second.new third.new own2.new own3.new
        long1.new long2.new ≡ side_loaded (party_of guest) t
        (lent list.old first.old second.old third.old own2.old own3.old
        long1.old long2.old) input.now }
{
    let g = t.geometry;
    clear_side(g, second, third, own2, own3, long2, guest, see2, see3);
    open_between(g, input, top_of(guest), own2, own3);
    view(own2, guest, see2);
    view(own3, guest, see3);
    lay(
        g, input, list, first, second, third, see2, see3, long1, long2,
    );
}

// The same with room of its own.
pub fn load_side(
    t: Pair,
    list: &mut [u8],
    first: &mut [u16],
    long1: &mut [u16],
    second: &mut [u16],
    third: &mut [u16],
    own2: &mut [u32],
    own3: &mut [u32],
    long2: &mut [u16],
    guest: bool,
    input: &[u8],
)
    requires { LoadReady (party_of guest) t
        (lent list.old first.old second.old third.old own2.old own3.old long1.old long2.old) input.now }
    ensures { lent list.new first.new second.new third.new own2.new own3.new
        long1.new long2.new ≡ side_loaded (party_of guest) t
        (lent list.old first.old second.old third.old own2.old own3.old
        long1.old long2.old) input.now }
{
    let n2 = own2.len();
    let n3 = own3.len();
    let mut see2 = [0u32; 4096];
    let mut see3 = [0u32; 4096];
    write_side(
        t,
        list,
        first,
        long1,
        second,
        third,
        own2,
        own3,
        long2,
        guest,
        input,
        &mut see2[..n2],
        &mut see3[..n3],
    );
}
