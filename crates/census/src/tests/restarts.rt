//! Nodes that crash, come back from their logs, and have writes torn.

ghost use Rattle.std.specs.Prelude.{◌≡◌, [], None};

use super::desks::{LEADS_TWO, check_log, kept};
use super::{REPLAY, run_over, schedule_of, words};
use crate::memory::{CleanSink, CleanSource};
use crate::status::Status;
use cs_base::{Addr, NodeId};
use cs_link::{CleanGround, CleanLink, Ground, GroundFault};
use cs_log::{CleanLog, Log, LogFailed, ReadAllFault};
use cs_piece::Piece;
use std::alloc::{AllocError, Global};

// A leader that is down, and comes back.
pub(crate) const DOWN: &str = "\
> crash 1
no node
> restart 1
no node
> tear 1 5
no node
> lead 1 127.0.0.1:9001 0 0 0
up 1
> crash 1
down 1
> crash 1
down
> print 1
down
> join 1
down
> leave 1
down
> flush 1
down
> move 1 5 0 0
down
> close
down
> noise 1 5
> boot 2 127.0.0.1:9002 10 0 0 partial
up 2
> join 2
told
#1 2>1 report 1
> deliver 1
down
> restart 1
leader 0
> restart 1
up
> print 1
epoch 0
region 0 1 0 0 0 0 0 0 0 0 0
global 0 1 127.0.0.1:9001 0 0 0
member 0 1 127.0.0.1:9001 0 0 0
inter 0 0
inter 1 0
inter 2 0
inter 3 0
local 0 0 1
digest a9d1918a6e3b2d76294afc029d43e1aeecfeff4be8e315c234018ddf4c869733
end
";

// A member that comes back keeps the number of its last move. One that has left comes back as that.
pub(crate) const MEMBER_BACK: &str = "\
> lead 1 127.0.0.1:9001 0 0 0
up 1
> boot 2 127.0.0.1:9002 10 0 0 partial
up 2
> join 2
told
#1 2>1 report 1
> deliver 1
noted 1 0 0 0
> close
accepted 2 join
closed 1
#2 1>2 snap 1 0
> deliver 2
jumped 1
> move 2 12 0 0
moved 1
#3 2>1 report 1
> crash 2
down 2
> move 2 14 0 0
down
> restart 2
member 1
> move 2 14 0 0
moved 2
#4 2>1 report 1
> leave 2
told
#5 2>1 report 1
> deliver 3
noted 1 0 0 0
> deliver 4
noted 0 1 0 0
> deliver 5
noted 0 1 0 0
> close
accepted 2 leave
closed 2
#6 1>2 piece 2 0 0
#7 1>2 piece 2 0 1
#8 1>2 piece 2 0 2
#9 1>2 piece 2 0 3
> settle 5
- deliver 6
held
- deliver 7
held
#10 2>1 piece 2 0 1
- deliver 8
departed
#11 2>1 piece 2 0 3
- deliver 9
departed
- deliver 10
stale 2 2
- deliver 11
stale 2 2
settled 6
> crash 2
down 2
> restart 2
departed
> print 2
departed
";

// The entry of the first close is torn: the leader comes back at epoch 0, and closes it with the report that it gets
// then.
pub(crate) const TORN: &str = "\
> lead 1 127.0.0.1:9001 0 0 0
up 1
> boot 2 127.0.0.1:9002 10 0 0 partial
up 2
> boot 3 127.0.0.1:9003 20 0 0 partial
up 3
> join 2
told
#1 2>1 report 1
> join 3
told
#2 3>1 report 1
> deliver 1
noted 1 0 0 0
> tear 1 10
armed 10
> close
stopped log
> restart 1
leader 0
> deliver 2
noted 1 0 0 0
> close
accepted 3 join
closed 1
#3 1>3 snap 1 0
";

// All of it is written before the leader stops: the leader comes back at epoch 1, and nothing of the first close was
// sent.
pub(crate) const TORN_BEHIND: &str = "\
> lead 1 127.0.0.1:9001 0 0 0
up 1
> boot 2 127.0.0.1:9002 10 0 0 partial
up 2
> boot 3 127.0.0.1:9003 20 0 0 partial
up 3
> join 2
told
#1 2>1 report 1
> join 3
told
#2 3>1 report 1
> deliver 1
noted 1 0 0 0
> tear 1 100000
armed 100000
> close
stopped log
> restart 1
leader 1
> deliver 2
noted 1 0 0 0
> close
accepted 3 join
closed 2
#3 1>3 snap 2 0
#4 1>2 piece 2 0 0
#5 1>2 piece 2 0 1
#6 1>2 piece 2 0 2
#7 1>2 piece 2 0 3
";

// As in `TORN`, but the leader stays down.
pub(crate) const STAYS_TORN: &str = "\
> lead 1 127.0.0.1:9001 0 0 0
up 1
> boot 2 127.0.0.1:9002 10 0 0 partial
up 2
> boot 3 127.0.0.1:9003 20 0 0 partial
up 3
> join 2
told
#1 2>1 report 1
> join 3
told
#2 3>1 report 1
> deliver 1
noted 1 0 0 0
> tear 1 10
armed 10
> close
stopped log
> deliver 2
down
> close
down
";

// As in `TORN_BEHIND`, but the leader stays down.
pub(crate) const STAYS_DOWN: &str = "\
> lead 1 127.0.0.1:9001 0 0 0
up 1
> boot 2 127.0.0.1:9002 10 0 0 partial
up 2
> boot 3 127.0.0.1:9003 20 0 0 partial
up 3
> join 2
told
#1 2>1 report 1
> join 3
told
#2 3>1 report 1
> deliver 1
noted 1 0 0 0
> tear 1 100000
armed 100000
> close
stopped log
> deliver 2
down
> close
down
";

// The log of node 1 once it began epoch 1 with node 3 as a member.
const LEADS_THREE: &[u8] = b"\0\0\0\x23\x01\x01\0\0\0\x01\x7f\0\0\x01\x23\x29\0\0\0\0\0\0\0\0\0\0\
    \0\0\x01\0\0\0\x01\x7f\0\0\x01\x23\x29\0\0\0\x1d\x06\0\0\0\x01\x01\x01\0\0\0\x03\x7f\0\0\x01\
    \x23\x2b\0\0\0\x14\0\0\0\0\0\0\0\0";

// The same with node 2 as a member, and then epoch 2 with node 3.
const LEADS_BOTH: &[u8] = b"\0\0\0\x23\x01\x01\0\0\0\x01\x7f\0\0\x01\x23\x29\0\0\0\0\0\0\0\0\0\0\0\
    \0\x01\0\0\0\x01\x7f\0\0\x01\x23\x29\0\0\0\x1d\x06\0\0\0\x01\x01\x01\0\0\0\x02\x7f\0\0\x01\x23\
    \x2a\0\0\0\x0a\0\0\0\0\0\0\0\0\0\0\0\x1d\x06\0\0\0\x02\x01\x01\0\0\0\x03\x7f\0\0\x01\x23\x2b\0\
    \0\0\x14\0\0\0\0\0\0\0\0";

// The log of node 1 as it started, and the first 10 bytes of one more frame.
const LEADS_TORN: &[u8] = b"\0\0\0\x23\x01\x01\0\0\0\x01\x7f\0\0\x01\x23\x29\0\0\0\0\0\0\0\0\0\0\0\
    \0\x01\0\0\0\x01\x7f\0\0\x01\x23\x29\0\0\0\x1d\x06\0\0\0\x01\x01";

#[test]
fn logs_of_torn_leaders(rt: HostRuntime) {
    let rows: [(&str, &[u8]); 4] = [
        (TORN, LEADS_THREE),
        (TORN_BEHIND, LEADS_BOTH),
        (STAYS_TORN, LEADS_TORN),
        (STAYS_DOWN, LEADS_TWO),
    ];
    for (transcript, log) in rows {
        let desk = kept(&rt, &schedule_of(&rt, transcript), Status::Done);
        check_log(&rt, &desk, 1, log);
    }
}

// A log in memory that doesn't tell its bytes: it hands out 30 at place 63, which ends the first axis of who was let
// in first.
#[derive(Debug, Drop)]
struct Untold {
    log: CleanLog,
}

impl Log for Untold {
    ghost bytes = { λ _. None };

    ghost synced = { λ log. ⟦<CleanLog as Log>⟧.synced log.log };

    ghost spare = { λ log. ⟦<CleanLog as Log>⟧.spare log.log };

    ghost faults = { λ _. 0 };

    ghost own_faults = { λ _. 0 };

    ghost within = { λ _. tt };

    fn ready(&mut self, n: u64) -> Result<(), AllocError> {
        self.log.ready(n)
    }

    fn append(&mut self, piece: &[u8]) -> Result<(), LogFailed> {
        self.log.append(piece)
    }

    fn sync(&mut self) -> Result<(), LogFailed> {
        self.log.sync()
    }

    // Where it isn't so long, all of it stays.
    fn cut(&mut self, len: u64) -> Result<(), LogFailed> {
        let all = self.log.as_slice().len() as u64;
        self.log.cut(len.min(all))
    }

    fn read_all(&mut self) -> Result<Piece, ReadAllFault> {
        let mut bytes = self.log.read_all()?.into_vec();
        if let Some(byte) = bytes.get_mut(63) {
            *byte = 30;
        }
        Ok(Piece::from_vec(bytes))
    }
}

// Grants links in memory, and such logs.
#[derive(Debug, Drop)]
struct UntoldGround {
    ground: CleanGround,
}

impl UntoldGround {
    fn new(alloc: Global) -> Self
        ensures { ⟦<UntoldGround as Ground>⟧.out result ≡ [] }
    {
        UntoldGround {
            ground: CleanGround::new(alloc),
        }
    }
}

impl Ground for UntoldGround {
    ghost use Rattle.std.proofs.Common.{refl};

    type Wire = CleanLink;

    type Store = Untold;

    ghost logs = { λ _. None };

    ghost traffic = { λ desk. ⟦<CleanGround as Ground>⟧.traffic desk.ground };

    ghost out = { λ desk. ⟦<CleanGround as Ground>⟧.out desk.ground };

    ghost faults = { λ _. 0 };

    ghost link_faults = { λ _. 0 };

    ghost log_faults = { λ _. 0 };

    ghost taken = { λ desk. ⟦<CleanGround as Ground>⟧.taken desk.ground };

    ghost dry = { λ desk. ⟦<CleanGround as Ground>⟧.dry desk.ground };

    ghost logs_tell = { λ desk store told. told };

    ghost links_tell = { λ desk wire told. refl };

    fn grant(&mut self, id: NodeId, addr: Addr) -> Result<(CleanLink, Untold), GroundFault> {
        let (link, log) = self.ground.grant(id, addr)?;
        Ok((link, Untold { log }))
    }

    fn keep(&mut self, id: NodeId, wire: CleanLink, store: Untold) {
        let Untold { log } = store;
        self.ground.keep(id, wire, log);
    }
}

// Node 2 joins at (10, 0, 0). The leader's log hands out (30, 0, 0). So the leader prints that once it came back, and
// so does node 2 by the snapshot that it asks for.
const CHANGED: &str = "\
> lead 1 127.0.0.1:9001 0 0 0
up 1
> boot 2 127.0.0.1:9002 10 0 0 partial
up 2
> join 2
told
#1 2>1 report 1
> deliver 1
noted 1 0 0 0
> close
accepted 2 join
closed 1
#2 1>2 snap 1 0
> crash 1
down 1
> restart 1
leader 1
> ask 2 1
told
#3 2>1 ask 0
> deliver 3
answered
#4 1>2 snap 1 0
> deliver 4
jumped 1
> print 1
epoch 1
region 0 2 30 0 0 0 0 0 30 0 0
global 0 1 127.0.0.1:9001 0 0 0
global 0 2 127.0.0.1:9002 30 0 0
member 0 1 127.0.0.1:9001 0 0 0
member 0 2 127.0.0.1:9002 30 0 0
inter 0 0
inter 1 0
inter 2 0
inter 3 0
local 0 0 1 1>2
local 0 1 2 2>1
digest a1ef4187ef5e258b07cf880f65b94b9252f41b0b6ded2779ba30d233147e25bf
end
> print 2
epoch 1
region 0 2 30 0 0 0 0 0 30 0 0
global 0 1 127.0.0.1:9001 0 0 0
global 0 2 127.0.0.1:9002 30 0 0
member 0 1 127.0.0.1:9001 0 0 0
member 0 2 127.0.0.1:9002 30 0 0
inter 0 0
inter 1 0
inter 2 0
inter 3 0
local 0 0 1 1>2
local 0 1 2 2>1
digest a1ef4187ef5e258b07cf880f65b94b9252f41b0b6ded2779ba30d233147e25bf
end
";

#[test]
fn a_node_is_what_its_log_hands_out(rt: HostRuntime) {
    let alloc = rt.alloc();
    let mut source = CleanSource::new(schedule_of(&rt, CHANGED));
    let mut sink = CleanSink::new(alloc);
    let mut desk = UntoldGround::new(alloc);
    let replay = words(&rt, &[REPLAY]);
    let status = run_over(alloc, &replay, &mut source, &mut sink, &mut desk);
    assert_eq!(rt; status, Status::Done);
    assert_eq!(rt; sink.written(), CHANGED.as_bytes());
}
