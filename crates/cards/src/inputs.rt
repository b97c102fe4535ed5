// The calls on record inputs.
ghost use Rattle.std.specs.Prelude.{◌≡◌};
ghost use Rattle.routes.specs.Answers.{route_said};
ghost use Rattle.longest.specs.Said.{longest_said};
ghost use Rattle.runs.specs.Run.{run_said};
ghost use Rattle.packing.specs.Pack.{pack_run, pack_route};
ghost use Rattle.packing_inputs.specs.Tallies.{tally_card};
ghost use Rattle.sail_words.specs.Lookups.{words_card};

use bits::narrow::narrow8;

// The run under a prefix, as its first record and its number of records.
#[unsafe(no_mangle)]
pub extern "C" fn gh_run(input: &[u8], addr: u32, len: u32) -> u64
    ensures { result ≡ pack_run (run_said input.now addr len) }
{
    packing_inputs::run(runs::run::run_check(input, addr, narrow8(len)))
}

// One route of the input, read back.
#[unsafe(no_mangle)]
pub extern "C" fn gh_route(input: &[u8], index: u32) -> u64
    ensures { result ≡ pack_route (route_said input.now index) }
{
    packing_inputs::got(input_check::input::route_at(input, index as usize))
}

// The longest route of the input that covers an address.
#[unsafe(no_mangle)]
pub extern "C" fn gh_longest(input: &[u8], addr: u32) -> u64
    ensures { result ≡ pack_route (longest_said input.now addr) }
{
    packing_inputs::got(longest::longest(input, addr))
}

// The number of routes of each length, into 33 words.
#[unsafe(no_mangle)]
pub extern "C" fn gh_tally(input: &[u8], out: &mut [u32]) -> u64
    ensures { words_card result out.new ≡ tally_card input.now out.old }
{
    packing_inputs::tallies::tally_words(input, out)
}
