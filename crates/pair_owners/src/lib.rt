// The owners of a pool that two parties share, as either sees them.
#![tactic(auto)]

ghost use Rattle.std.specs.Prelude.{◌≡◌, ◌<◌, length};
ghost use Rattle.bits.specs.Tab.{Tells};
ghost use Rattle.pair.specs.Party.{party_of, seen, view};
ghost use Rattle.pair.specs.PairSound.{Nobodys};

// What a party sees in an owner: 1 + the place, where the chunk is its own, and else 0. `guest` tells whether it is the second.
pub fn seen(o: u32, guest: bool) -> u32
    ensures { result ≡ seen (party_of guest) o }
{
    if guest {
        if o < 2147483648 {
            return 0;
        }
        return o - 2147483648;
    }
    if o < 2147483648 {
        return o;
    }
    0
}

// The owners as a party sees them, written to `out`.
pub fn view(own: &[u32], guest: bool, out: &mut [u32])
    requires { length out.old ≡ length own.now }
    ensures { out.new ≡ view (party_of guest) own.now }
{
    for c in 0..own.len() {
        out[c] = seen(own[c], guest);
    }
}

// Whether each owner is a party's, or 0: none is the top bit with no place.
pub fn nobodys_ok(own: &[u32]) -> bool
    ensures { Tells result (Nobodys own.now) }
{
    own.iter().all(|o| *o != 2147483648)
}
