//! Links and logs in memory that fail at the calls which are named of a node.

ghost use Rattle.std.specs.Prelude.{IfOk};
ghost use Rattle.cs_link.specs.Failing.{IsNewLink, IsNewLog, calls_of};

use crate::MemLink;
use cs_base::NodeId;
use cs_log::MemLog;
use std::alloc::{AllocError, Global};

/// A call of a node's link, or of its log, that is to fail.
#[derive(Clone, Copy, Debug)]
pub(crate) struct Failing {
    pub id: NodeId,
    pub call: u64,
}

/// A new link, which fails at the calls that are named of this node.
pub(crate) fn link_of(alloc: Global, failing: &[Failing], id: NodeId) -> Result<MemLink, AllocError>
    ensures { IfOk result (IsNewLink (calls_of id failing.now)) }
{
    let mut link = MemLink::new(alloc);
    for named in failing {
        if named.id == id {
            link.fail(named.call)?;
        }
    }
    Ok(link)
}

/// A new log, which fails at the calls that are named of this node.
pub(crate) fn log_of(alloc: Global, failing: &[Failing], id: NodeId) -> Result<MemLog, AllocError>
    ensures { IfOk result (IsNewLog (calls_of id failing.now)) }
{
    let mut log = MemLog::new(alloc);
    for named in failing {
        if named.id == id {
            log.fail(named.call)?;
        }
    }
    Ok(log)
}
