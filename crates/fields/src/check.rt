// Whether a field is entries end to end, and nothing else.
ghost use Rattle.std.specs.Prelude.{◌≡◌};
ghost use Rattle.refusals.specs.Numbers.{fault_of};
ghost use Rattle.fields.specs.Field.{field_fault};

use crate::entry::bytes_for;
use refusals::Refusal;

// Refused (17) where a length is over 32, or the field ends inside an entry. All bytes are looked at.
pub fn check_field(field: &[u8]) -> Result<(), Refusal>
    ensures { fault_of result ≡ field_fault field.now }
{
    let n = field.len();
    let mut at = 0;
    while at < n {
        let len = u32::from(field[at]);
        if 32 < len {
            return Err(Refusal::Field);
        }
        let size = 1 + bytes_for(len);
        if n - at < size {
            return Err(Refusal::Field);
        }
        at += size;
    }
    Ok(())
}
