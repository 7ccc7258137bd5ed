ghost use Rattle.std.specs.Prelude.{◌≤◌, ◌++◌, length};
ghost use Rattle.cs_base.specs.Limits.{most_members, most_together};
ghost use Rattle.cs_fields.specs.Changes.{changes_bytes, IsChanges};
ghost use Rattle.cs_fields.specs.Fields.{id_bytes, many_ids_bytes};
ghost use Rattle.cs_fields.specs.Numbers.{number_bytes};
ghost use Rattle.cs_fields.specs.Reading.{Gives, HasRoom};
ghost use Rattle.cs_fields.specs.Writing.{Appends, Extends};
ghost use Rattle.cs_packet.specs.EntryField.{base_entry_at, base_len};
ghost use Rattle.cs_packet.specs.RowsField.{rows_bytes};

use crate::Entry;
use crate::codec::rows::{put_rows, take_rows};
use cs_base::{Changes, Epoch, Ids, LAST_ID};
use cs_fields::{
    PacketFault, put_changes, put_epoch, put_many_ids, put_u32, take_changes, take_later_epoch,
    take_many_ids, take_u32_in, undone,
};
use cs_group::RowList;
use std::alloc::{AllocError, Global};

/// An epoch, the group before it, and its changes.
#[tactic(auto, unfolding(crate::specs::EntryField::base_entry_at))]
pub fn take_base(alloc: Global, bytes: &[u8], at: u32) -> Result<(Entry, u32), PacketFault>
    requires { HasRoom bytes.now at base_len }
    ensures { Gives result (base_entry_at bytes.now at) }
{
    let (epoch, behind) = take_later_epoch(bytes, at)?;
    let (next_region, behind) = take_u32_in(bytes, behind, 0, LAST_ID)?;
    let (retired, behind) = take_many_ids(alloc, bytes, behind)?;
    let (rows, behind) = take_rows(alloc, bytes, behind)?;
    let (changes, behind) = take_changes(alloc, bytes, behind)?;
    Ok((
        Entry::Base {
            epoch,
            next_region,
            retired,
            rows,
            changes,
        },
        behind,
    ))
}

pub fn put_base(
    out: &mut Vec<u8>,
    epoch: Epoch,
    next_region: u32,
    retired: &Ids,
    rows: &RowList,
    changes: &Changes,
) -> Result<(), AllocError>
    requires few_retired { length retired.now ≤ most_together }
    requires few_rows { length rows.now ≤ most_members }
    requires changes { IsChanges 0 changes.now }
    ensures { Appends result out.old.items out.new.items (id_bytes epoch ++ number_bytes 4 next_region
        ++ many_ids_bytes retired.now ++ rows_bytes rows.now ++ changes_bytes changes.now) }
{
    undone!(
        out,
        append_base(out, epoch, next_region, retired, rows, changes)
    )
}

fn append_base(
    out: &mut Vec<u8>,
    epoch: Epoch,
    next_region: u32,
    retired: &Ids,
    rows: &RowList,
    changes: &Changes,
) -> Result<(), AllocError>
    requires few_retired { length retired.now ≤ most_together }
    requires few_rows { length rows.now ≤ most_members }
    requires changes { IsChanges 0 changes.now }
    ensures { Extends result out.old.items out.new.items (id_bytes epoch ++ number_bytes 4 next_region
        ++ many_ids_bytes retired.now ++ rows_bytes rows.now ++ changes_bytes changes.now) }
{
    put_epoch(out, &epoch)?;
    put_u32(out, &next_region)?;
    put_many_ids(out, retired)?;
    put_rows(out, rows)?;
    put_changes(out, changes)
}
