// The answers of the calls on route fields: a field that was written, and a message that was dealt to a table.
#![tactic(auto)]

ghost use Rattle.std.specs.Prelude.{[], ◌∷◌, ◌≡◌, ◌+◌, ◌*◌, ◌%◌, ◌^◌, ◌≤◌};
ghost use Rattle.numbered.specs.Numbers.{said_numbered};
ghost use Rattle.sail_update.specs.Answers.{means_update};
ghost use Rattle.packing_fields.specs.Answers.{pack_written, pack_update};

use bits::widen::{byte_to_long, word_to_long};
use numbered::Numbered;
use packing::refused;
use sail_update::answers::Update;

pub fn written<E: Numbered>(a: Result<usize, E>) -> u64
    ensures { result ≡ pack_written (said_numbered E.by_number (λ n. n ∷ []) a) }
{
    match a {
        Ok(n) => (n as u64) % 4294967296 * 4294967296,
        Err(e) => refused(e),
    }
}

// The routes after the call, and the entries that were dealt with.
fn dealt(k: u32, count: u32) -> u64
    ensures { (result ≡ count % 65536 * 65536 + k * 2 ^ 32) × (result ≤ 18446744073709486080) }
{
    word_to_long(count) % 65536 * 65536 + word_to_long(k) * 4294967296
}

pub fn updated(a: Update, count: u32) -> u64
    ensures { result ≡ pack_update count (means_update a) }
{
    match a {
        Update::Done(k) => dealt(k, count),
        Update::Stopped(z, k) => byte_to_long(z) + 256 + dealt(k, count),
        Update::Refused(z) => byte_to_long(z),
    }
}
