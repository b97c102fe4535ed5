// The place of a key in an ascending list of records.
ghost use Rattle.std.specs.Prelude.{◌≡◌, ◌≤◌};
ghost use Rattle.routes.specs.Record.{Records};
ghost use Rattle.lists.specs.Place.{place_of};

use records::record;

// The first of n records that is not before the key k, by halving; n where all are.
// Stays: std's `partition_point` is a slice's, whose elements are records. These are eight bytes each in a list of bytes, as C lends it.
pub fn place(list: &[u8], n: usize, k: u64) -> usize
    requires { Records list.now n }
    ensures { (result ≡ place_of list.now n k) × (result ≤ n) }
{
    let mut low = 0;
    let mut high = n;
    while low < high {
        let mid = low + (high - low) / 2;
        if record::key_at(list, mid) < k {
            low = mid + 1;
        } else {
            high = mid;
        }
    }
    low
}
