// Arrays written over: with one value in a range, or with the bytes of another array.
ghost use Rattle.std.specs.Prelude.{◌≡◌, ◌≤◌, length};
ghost use Rattle.buffers.specs.Fill.{Range, filled, padded};

// Sets every number from `from` up to `to` to v.
pub fn fill_range(out: &mut [u16], from: usize, to: usize, v: u16)
    requires { Range from to (length out.old) }
    ensures { out.new ≡ filled out.old from to v }
{
    out[from..to].fill(v);
}

// The source's bytes, and zeros after them.
// Stays: a loop. `copy_from_slice` would need memmove here, and the header promises that the archive needs memcpy and memset alone.
pub fn put(out: &mut [u8], source: &[u8])
    requires { length source.now ≤ length out.old }
    ensures { out.new ≡ padded source.now (length out.old) }
{
    let n = source.len();
    for i in 0..n {
        out[i] = source[i];
    }
    out[n..].fill(0);
}
