// The printing program: up to 520 bytes of records are read from standard input, and what `printed` makes of them is written to standard
// output.
#![tactic(auto)]

// Stays: crate `io` on files by number, where std's reader and writer would answer a failed read or write with an error: here a read that fails
// is the input's end, and the status stays 0 where the output can't be written.
fn main() {
    let mut input = [0u8; 520];
    let n = io::read_full(0, &mut input);
    let mut out = [0u8; print::PAGE];
    let m = print::printed(&input[..n], &mut out);
    io::write_all(1, &out[..m]);
}
