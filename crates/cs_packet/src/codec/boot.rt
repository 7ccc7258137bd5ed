ghost use Rattle.std.specs.Prelude.{◌≡◌, ◌+◌, ◌≤◌, length, IfOk};
ghost use Rattle.cs_fields.specs.Fields.{address_at, id_at, mode_at};
ghost use Rattle.cs_fields.specs.Reading.{checked, HasRoom};
ghost use Rattle.cs_fields.specs.Writing.{Appends, Extends};
ghost use Rattle.cs_packet.specs.BootField.{boot_at, boot_bytes, boot_len, flag_at, flag_number};
ghost use Rattle.cs_packet.specs.BootField.{is_leader_address_of, is_leader_of, is_mode_of, led_bytes, own_bytes};

use crate::Own;
use cs_base::{Addr, Mode, NodeId};
use cs_fields::{
    PacketFault, put_address, put_id, put_mode, put_point, put_u8, take_address, take_id,
    take_mode, take_point, take_u8_in, undone,
};
use std::alloc::AllocError;

/// Whether a node leads, and who it is.
#[tactic(auto, unfolding(crate::specs::BootField::boot_at))]
pub fn take_boot(bytes: &[u8], at: u32) -> Result<((bool, Own), u32), PacketFault>
    requires { HasRoom bytes.now at boot_len }
    ensures { result ≡ boot_at bytes.now at }
{
    let (leads, behind) = take_flag(bytes, at)?;
    let (id, behind) = take_id(bytes, behind)?;
    let (addr, behind) = take_address(bytes, behind)?;
    let (at, behind) = take_point(bytes, behind)?;
    let (mode, behind) = take_mode_of(bytes, behind, leads)?;
    let (leader, behind) = take_leader_of(bytes, behind, leads, id)?;
    let (leader_addr, behind) = take_leader_address_of(bytes, behind, leads, addr)?;
    let own = Own {
        id,
        addr,
        at,
        mode,
        leader,
        leader_addr,
    };
    Ok(((leads, own), behind))
}

#[tactic(auto, unfolding(crate::specs::BootField::flag_at))]
fn take_flag(bytes: &[u8], at: u32) -> Result<(bool, u32), PacketFault>
    requires { HasRoom bytes.now at 1 }
    ensures exact { result ≡ flag_at bytes.now at }
    ensures near { IfOk result (λ x. (x.1 ≤ length bytes.now) × (x.1 ≤ at + 1)) }
{
    let (flag, behind) = take_u8_in(bytes, at, 0, 1)?;
    Ok((flag == 1, behind))
}

// A mode that the node may have.
fn take_mode_of(bytes: &[u8], at: u32, leads: bool) -> Result<(Mode, u32), PacketFault>
    requires { HasRoom bytes.now at 1 }
    ensures exact { result ≡ checked (is_mode_of leads) mode_at bytes.now at }
    ensures near { IfOk result (λ x. (x.1 ≤ length bytes.now) × (x.1 ≤ at + 1)) }
{
    let (mode, behind) = take_mode(bytes, at)?;
    if leads && mode == Mode::Partial {
        return Err(PacketFault::Value(at));
    }
    Ok((mode, behind))
}

// A leader that the node with this id may have.
fn take_leader_of(
    bytes: &[u8],
    at: u32,
    leads: bool,
    id: NodeId,
) -> Result<(NodeId, u32), PacketFault>
    requires { HasRoom bytes.now at 4 }
    ensures exact { result ≡ checked (is_leader_of leads id) id_at bytes.now at }
    ensures near { IfOk result (λ x. (x.1 ≤ length bytes.now) × (x.1 ≤ at + 4)) }
{
    let (leader, behind) = take_id(bytes, at)?;
    if leads != (leader == id) {
        return Err(PacketFault::Value(at));
    }
    Ok((leader, behind))
}

// An address that the leader of the node with this address may have.
fn take_leader_address_of(
    bytes: &[u8],
    at: u32,
    leads: bool,
    addr: Addr,
) -> Result<(Addr, u32), PacketFault>
    requires { HasRoom bytes.now at 6 }
    ensures { result ≡ checked (is_leader_address_of leads addr) address_at bytes.now at }
{
    let (leader_addr, behind) = take_address(bytes, at)?;
    if leads && leader_addr != addr {
        return Err(PacketFault::Value(at));
    }
    Ok((leader_addr, behind))
}

fn flag_number(leads: bool) -> u8
    ensures { result ≡ flag_number leads }
{
    if leads { 1 } else { 0 }
}

pub fn put_boot(out: &mut Vec<u8>, leads: bool, own: &Own) -> Result<(), AllocError>
    ensures { Appends result out.old.items out.new.items (boot_bytes (leads, own.now)) }
{
    undone!(out, append_boot(out, leads, own))
}

#[tactic(auto, unfolding(crate::specs::BootField::boot_bytes))]
fn append_boot(out: &mut Vec<u8>, leads: bool, own: &Own) -> Result<(), AllocError>
    ensures { Extends result out.old.items out.new.items (boot_bytes (leads, own.now)) }
{
    put_u8(out, &flag_number(leads))?;
    put_own(out, own)
}

fn put_own(out: &mut Vec<u8>, own: &Own) -> Result<(), AllocError>
    ensures { Appends result out.old.items out.new.items (own_bytes own.now) }
{
    undone!(out, append_own(out, own))
}

fn append_own(out: &mut Vec<u8>, own: &Own) -> Result<(), AllocError>
    ensures { Extends result out.old.items out.new.items (own_bytes own.now) }
{
    put_id(out, &own.id)?;
    put_address(out, &own.addr)?;
    put_point(out, &own.at)?;
    put_led(out, own)
}

// What a node wants to know, and who leads it.
fn put_led(out: &mut Vec<u8>, own: &Own) -> Result<(), AllocError>
    ensures { Appends result out.old.items out.new.items (led_bytes own.now) }
{
    undone!(out, append_led(out, own))
}

fn append_led(out: &mut Vec<u8>, own: &Own) -> Result<(), AllocError>
    ensures { Extends result out.old.items out.new.items (led_bytes own.now) }
{
    put_mode(out, &own.mode)?;
    put_id(out, &own.leader)?;
    put_address(out, &own.leader_addr)
}
