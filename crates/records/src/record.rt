// One record of eight bytes: read, and written into a lent list.
ghost use Rattle.std.specs.Prelude.{◌≡◌, ◌+◌, ◌*◌, ◌/◌, ◌%◌, ◌≤◌, ◌<◌, ◌^◌, length, set};
ghost use Rattle.routes.specs.Route.{key};
ghost use Rattle.routes.specs.Record.{word32, word16, record_at, put_at};

use routes::Route;

// Two bytes from a place on, as a number.
pub fn half_at(list: &[u8], at: usize) -> u16
    requires { at + 2 ≤ length list.now }
    ensures { result ≡ word16 list.now at }
{
    u16::from(list[at]) * 256 + u16::from(list[at + 1])
}

// Four bytes.
pub fn word_at(list: &[u8], at: usize) -> u32
    requires { at + 4 ≤ length list.now }
    ensures { result ≡ word32 list.now at }
{
    u32::from(half_at(list, at)) * 65536 + u32::from(half_at(list, at + 2))
}

// The route of record k.
pub fn read_record(list: &[u8], k: usize) -> Route
    requires { (k + 1) * 8 ≤ length list.now }
    ensures { result ≡ record_at list.now k }
{
    let at = k * 8;
    Route {
        addr: word_at(list, at),
        len: list[at + 4],
        mark: list[at + 5],
        hop: half_at(list, at + 6),
    }
}

// A prefix's place in the order of a list, as one number: the address, then the length.
pub fn key_of(addr: u32, len: u8) -> u64
    ensures { (result ≡ addr * 256 + len) × (result < 2 ^ 40) }
{
    u64::from(addr) * 256 + u64::from(len)
}

// The key of record k.
pub fn key_at(list: &[u8], k: usize) -> u64
    requires { (k + 1) * 8 ≤ length list.now }
    ensures { (result ≡ key (record_at list.now k)) × (result < 2 ^ 40) }
{
    let at = k * 8;
    key_of(word_at(list, at), list[at + 4])
}

// Two bytes from a place on are made those of a number.
pub fn put_half(list: &mut [u8], at: usize, h: u16)
    requires { at + 2 ≤ length list.old }
    ensures { list.new ≡ set (set list.old at (h / 256)) (at + 1) (h % 256) }
{
    list[at] = (h / 256) as u8;
    list[at + 1] = (h % 256) as u8;
}

// Record k of the list is made `r`, and nothing else changes.
pub fn write_record(list: &mut [u8], k: usize, r: Route)
    requires { (k + 1) * 8 ≤ length list.old }
    ensures { list.new ≡ put_at list.old k r }
{
    let at = k * 8;
    let addr = r.addr;
    put_half(list, at, (addr / 65536) as u16);
    put_half(list, at + 2, (addr % 65536) as u16);
    list[at + 4] = r.len;
    list[at + 5] = r.mark;
    put_half(list, at + 6, r.hop);
}
