// One entry of a field.
ghost use Rattle.std.specs.Prelude.{◌≡◌, ◌+◌, ◌≤◌, ◌<◌, length, get_or, take, drop};
ghost use Rattle.fields.specs.Field.{bytes_for};
ghost use Rattle.fields.specs.Entry.{EntryAt, IsEntry};

// How many bytes a prefix of so many bits takes.
pub fn bytes_for(len: u32) -> usize
    requires { len ≤ 32 }
    ensures { (result ≡ bytes_for len) × (result ≤ 4) }
{
    ((len + 7) / 8) as usize
}

// An entry: its prefix, and where the next one begins.
#[derive(Clone, Copy)]
pub struct Entry {
    pub addr: u32,
    pub len: u8,
    pub next: usize,
}

// The entry at a place of a field.
pub fn read_entry(field: &[u8], at: usize) -> Entry
    requires { EntryAt field.now at }
    ensures { IsEntry field.now at result }
{
    let len = field[at];
    let l = u32::from(len);
    let n = bytes_for(l);
    let b = at + 1;
    let mut bytes = [0u8; 4];
    bytes[..n].copy_from_slice(&field[b..b + n]);
    Entry {
        addr: bits::cut(l, u32::from_be_bytes(bytes)),
        len,
        next: b + n,
    }
}
