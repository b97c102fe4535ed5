// The owners of a shared pool once a party closed chunks of its own.
ghost use Rattle.std.specs.Prelude.{◌≡◌, length};
ghost use Rattle.pair.specs.Party.{party_of};
ghost use Rattle.pair_withdraw.specs.Closed.{owner_left, shut_for};

use pair_owners::seen;

// The owner o of a chunk that the party now sees as s: 0 where the chunk was the party's and is so no more.
fn owner_left(o: u32, s: u32, guest: bool) -> u32
    ensures { result ≡ owner_left (party_of guest) s o }
{
    if seen(o, guest) == s {
        return o;
    }
    0
}

// The same for each chunk; `see` has the owners as the party now sees them.
pub fn shut(own: &mut [u32], see: &[u32], guest: bool)
    requires { length see.now ≡ length own.old }
    ensures { own.new ≡ shut_for (party_of guest) see.now own.old }
{
    for c in 0..own.len() {
        own[c] = owner_left(own[c], see[c], guest);
    }
}
