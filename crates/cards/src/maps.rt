// The calls on bit maps, for cards without chunk memory.
ghost use Rattle.std.specs.Prelude.{◌≡◌};
ghost use Rattle.basic.specs.Calls.{basic_said, pack_hop, basic_many};
ghost use Rattle.basic_build.specs.Built.{basic_built};
ghost use Rattle.sail_words.specs.Lookups.{words_card};
ghost use Rattle.cards.specs.Maps.{maps_card, maps_card_of, hops_card};

// The maps of the input's routes.
#[unsafe(no_mangle)]
pub extern "C" fn gh_basic_build(input: &[u8], bits: &mut [u8], cells: &mut [u16]) -> u64
    ensures { maps_card result bits.new cells.new
        ≡ maps_card_of (basic_built input.now bits.old cells.old) }
{
    packing_maps::answered(basic_build::build(input, bits, cells))
}

// The hop for one address.
#[unsafe(no_mangle)]
pub extern "C" fn gh_basic_lookup(input: &[u8], bits: &[u8], cells: &[u16], addr: u32) -> u64
    ensures { result ≡ pack_hop (basic_said input.now bits.now cells.now addr) }
{
    packing_maps::hop_found(basic_lookup::lookup(input, bits, cells, addr))
}

// For each address the low 32 bits of what gh_basic_lookup answers. Input and sizes are checked once.
#[unsafe(no_mangle)]
pub extern "C" fn gh_basic_lookup_many(
    input: &[u8],
    bits: &[u8],
    cells: &[u16],
    addrs: &[u32],
    out: &mut [u32],
) -> u64
    ensures { words_card result out.new
        ≡ hops_card (basic_many input.now bits.now cells.now addrs.now out.old) }
{
    packing_maps::answered(basic_many::lookup_many(input, bits, cells, addrs, out))
}
