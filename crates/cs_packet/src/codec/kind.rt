ghost use Rattle.std.specs.Prelude.{◌≡◌, ◌+◌, ◌≤◌, length, IfOk};
ghost use Rattle.cs_fields.specs.Reading.{HasRoom};
ghost use Rattle.cs_packet.specs.KindField.{kind_at};

use cs_fields::{PacketFault, take_u8};

/// The number of a kind, which has to be from 1 to `last`.
#[tactic(auto, unfolding(crate::specs::KindField::kind_at))]
pub fn take_kind(bytes: &[u8], at: u32, last: u8) -> Result<(u8, u32), PacketFault>
    requires { HasRoom bytes.now at 1 }
    ensures exact { result ≡ kind_at last bytes.now at }
    ensures near { IfOk result (λ x. (x.1 ≤ length bytes.now) × (x.1 ≤ at + 1)) }
{
    let (kind, behind) = take_u8(bytes, at)?;
    if kind < 1 || kind > last {
        return Err(PacketFault::Kind(kind));
    }
    Ok((kind, behind))
}
