// The build of the maps from a record input: the hops of the short routes go into their cells, then the bits follow from the cells.
#![tactic(auto)]

ghost use Rattle.std.specs.Prelude.{◌≡◌, ◌+◌, ◌*◌, ◌<◌, length};
ghost use Rattle.bits.specs.Bit.{packed_bits};
ghost use Rattle.bits.specs.Count.{bit};
ghost use Rattle.routes.specs.Record.{Records, routes_of, GoodInput, routes_in};
ghost use Rattle.basic.specs.Maps.{MapSizes, hop_there, map_cells, map_bits};
ghost use Rattle.basic_build.specs.Built.{with_route, MapsFilled};
ghost use Rattle.basic_build.specs.Contract.{MeetsBasicBuild};

use basic::check::check;
use basic::maps::map_place;
use records::record;
use refusals::Refused;
use routes::Route;

// The hop of a route of at most 16 bits goes into its cell.
fn put(cells: &mut [u16], r: Route)
    requires { length cells.old ≡ 131071 }
    ensures { cells.new ≡ with_route r cells.old }
{
    let len = u32::from(r.len);
    if len <= 16 {
        let i = map_place(len, r.addr);
        cells[i] = r.hop;
    }
}

// The cells of good records.
fn put_cells(list: &[u8], n: usize, cells: &mut [u16])
    requires { Records list.now n × (length cells.old ≡ 131071) }
    ensures { cells.new ≡ map_cells (routes_of list.now n) }
{
    cells.fill(0);
    for k in 0..n {
        put(cells, record::read_record(list, k));
    }
}

// The bit of place i as a number: 1 where its cell holds a hop. The last place has no cell.
fn bit_of(cells: &[u16], i: usize) -> u32
    requires { length cells.now ≡ 131071 }
    ensures { result ≡ bit (hop_there cells.now i) }
{
    if i < 131071 && cells[i] != 0 { 1 } else { 0 }
}

// Byte j: the bits of eight places, the lowest first.
fn byte_of(cells: &[u16], j: usize) -> u8
    requires { (length cells.now ≡ 131071) × (j < 16384) }
    ensures { result ≡ packed_bits (λ b. hop_there cells.now (8 * j + b)) 8 }
{
    let mut byte = 0;
    for b in 0..8u32 {
        byte += bit_of(cells, 8 * j + (b as usize)) << b;
    }
    byte as u8
}

// All bytes.
fn put_bits(bits: &mut [u8], cells: &[u16])
    requires { MapSizes (length bits.old) (length cells.now) }
    ensures { bits.new ≡ map_bits cells.now }
{
    for j in 0..16384 {
        bits[j] = byte_of(cells, j);
    }
}

// Both arrays.
fn fill_maps(input: &[u8], n: usize, bits: &mut [u8], cells: &mut [u16])
    requires { GoodInput input.now n × MapSizes (length bits.old) (length cells.old) }
    ensures { MapsFilled (routes_in input.now) bits.new cells.new }
{
    put_cells(input, n, cells);
    put_bits(bits, cells);
}

// The maps of a record input. A refusal leaves both arrays as they were.
pub fn build(input: &[u8], bits: &mut [u8], cells: &mut [u16]) -> Result<(), Refused>
    ensures { MeetsBasicBuild input.now bits.old cells.old
        result bits.new cells.new }
{
    let n = check(input, bits.len(), cells.len())?;
    fill_maps(input, n, bits, cells);
    Ok(())
}
