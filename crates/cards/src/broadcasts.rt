// Directed broadcast.
ghost use Rattle.std.specs.Prelude.{◌≡◌};
ghost use Rattle.broadcast.specs.Cast.{cast_said};
ghost use Rattle.packing_inputs.specs.Casts.{pack_cast};

// Whether an address is a directed broadcast under the rule of a version.
#[unsafe(no_mangle)]
pub extern "C" fn gh_broadcast(version: u32, input: &[u8], addr: u32) -> u64
    ensures { result ≡ pack_cast (cast_said version input.now addr) }
{
    packing_inputs::cast_word(broadcast::broadcast(version, input, addr))
}
