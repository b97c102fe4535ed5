// A record put into an ascending list, or taken out of one, in the caller's array. The records after it move by one place.
ghost use Rattle.std.specs.Prelude.{◌≡◌};
ghost use Rattle.routes.specs.Route.{key};
ghost use Rattle.routes.specs.Record.{record_at, routes_of};
ghost use Rattle.standing.specs.Standing.{stands};
ghost use Rattle.lists.specs.Edit.{inserted, removed, InsertAt, ReplaceAt, RemoveAt, Placed, PutAt};

use records::record;
use routes::Route;

// `r` becomes record k of the list's n records, and those from k on stand one place further.
pub fn insert_at(list: &mut [u8], n: usize, k: usize, r: Route)
    requires { InsertAt list.old n k r }
    ensures { list.new ≡ inserted list.old n r }
{
    moves::up(list, k * 8, n * 8, 8);
    record::write_record(list, k, r);
}

// `r` takes the place of record k, which has its prefix.
pub fn replace_at(list: &mut [u8], n: usize, k: usize, r: Route)
    requires { ReplaceAt list.old n k r }
    ensures { list.new ≡ inserted list.old n r }
{
    record::write_record(list, k, r);
}

// Record k is taken out of the list's n records: those after it stand one place nearer, and the last becomes zero bytes.
pub fn remove_at(list: &mut [u8], n: usize, k: usize)
    requires { RemoveAt list.old n k }
    ensures { list.new ≡ removed list.old n (key (record_at list.old k)) }
{
    let last = n - 1;
    moves::down(list, k * 8, last * 8, 8);
    record::write_record(
        list,
        last,
        Route {
            addr: 0,
            len: 0,
            mark: 0,
            hop: 0,
        },
    );
}

// Whether a route of the key p stands in the list's n records: record k, the key's place, then has it.
pub fn stands_at(list: &[u8], n: usize, k: usize, p: u64) -> bool
    requires { Placed list.now n k p }
    ensures { result ≡ stands p (routes_of list.now n) }
{
    if k < n {
        return record::key_at(list, k) == p;
    }
    false
}

// `r` is put into the list's n records at k, the place of its key: over record k where its prefix stands, and else before it.
pub fn put_at(list: &mut [u8], n: usize, k: usize, stands: bool, r: Route)
    requires { PutAt list.old n k stands r }
    ensures { list.new ≡ inserted list.old n r }
{
    if stands {
        replace_at(list, n, k, r);
    } else {
        insert_at(list, n, k, r);
    }
}
