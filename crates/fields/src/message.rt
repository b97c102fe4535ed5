// A message: prefixes that are withdrawn, prefixes that are announced, and one hop for these.
ghost use Rattle.refusals.specs.Numbers.{fault_of};
ghost use Rattle.fields.specs.Message.{MessageChecked};

use crate::check::check_field;
use refusals::Refusal;
use routes::input::hop_ok;

// Refused if one of the fields is none (17), else for the hop (4). All bytes of both fields are looked at before the hop.
pub fn check_message(withdrawn: &[u8], reach: &[u8], hop: u16) -> Result<(), Refusal>
    ensures { MessageChecked withdrawn.now reach.now hop (fault_of result) }
{
    check_field(withdrawn)?;
    check_field(reach)?;
    if !hop_ok(hop) {
        return Err(Refusal::Hop);
    }
    Ok(())
}
