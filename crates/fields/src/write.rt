// The prefixes of a list put out as one field.
ghost use Rattle.std.specs.Prelude.{◌≡◌, ◌≤◌, length};
ghost use Rattle.routes.specs.Record.{Records, routes_of};
ghost use Rattle.fields.specs.Field.{field_of};
ghost use Rattle.fields.specs.Written.{EntryRoom, EntryPut, FieldRoom, FieldPut, field_out, field_written, means_written};

use crate::entry::bytes_for;
use input_check::input::check_input;
use records::record::read_record;
use refusals::{Refusal, Refused};

// The entry of a prefix, put at a place of the buffer: its length, and as many bytes of its address as that needs. The answer
// is where the next one goes.
fn put_entry(out: &mut [u8], at: usize, addr: u32, len: u8) -> usize
    requires { EntryRoom (length out.old) at len }
    ensures { EntryPut out.old at addr len out.new result }
{
    let n = bytes_for(u32::from(len));
    let next = at + 1 + n;
    out[at] = len;
    out[at + 1..next].copy_from_slice(&addr.to_be_bytes()[..n]);
    next
}

// How many bytes the field of the first n records has.
fn field_size(input: &[u8], n: usize) -> usize
    requires { Records input.now n }
    ensures { (result ≡ length (field_of (routes_of input.now n))) × (result ≤ 20480) }
{
    let mut size = 0;
    for k in 0..n {
        let r = read_record(input, k);
        size += 1 + bytes_for(u32::from(r.len));
    }
    size
}

// The field of the first n records, put at the front of the buffer.
fn put_field(input: &[u8], n: usize, out: &mut [u8])
    requires { FieldRoom input.now n (length out.old) }
    ensures { FieldPut input.now n out.old out.new }
{
    let mut at = 0;
    for k in 0..n {
        let r = read_record(input, k);
        at = put_entry(out, at, r.addr, r.len);
    }
}

// The prefixes of a record input as one field, at the front of the buffer: how many bytes it has. No byte after the field is
// touched, and none at all where the input is refused or the buffer is too short (18).
pub fn write_field(input: &[u8], out: &mut [u8]) -> Result<usize, Refused>
    ensures { field_out (means_written result) out.new ≡ field_written input.now out.old }
{
    let n = check_input(input)?;
    let size = field_size(input, n);
    if out.len() < size {
        return Err(Refusal::FieldRoom.into());
    }
    put_field(input, n, out);
    Ok(size)
}
