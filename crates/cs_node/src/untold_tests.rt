//! A log that doesn't tell its bytes, and hands out others than were appended.

ghost use Rattle.std.specs.Prelude.{None};

use crate::{After, State, boot_leader, recover};
use cs_base::{Addr, Member, NodeId, Point};
use cs_link::CleanLink;
use cs_log::{CleanLog, Log, LogFailed, ReadAllFault};
use cs_piece::Piece;
use std::alloc::{AllocError, Global};
use std::process::Abort;

// It hands out this byte at this place.
#[derive(Drop)]
struct Untold {
    log: CleanLog,
    place: usize,
    byte: u8,
}

impl Log for Untold {
    ghost bytes = { λ _. None };

    ghost synced = { λ log. ⟦<CleanLog as Log>⟧.synced log.log };

    ghost spare = { λ log. ⟦<CleanLog as Log>⟧.spare log.log };

    ghost faults = { λ _. 0 };

    ghost own_faults = { λ _. 0 };

    ghost within = { λ _. tt };

    fn ready(&mut self, n: u64) -> Result<(), AllocError> {
        self.log.ready(n)
    }

    fn append(&mut self, piece: &[u8]) -> Result<(), LogFailed> {
        self.log.append(piece)
    }

    fn sync(&mut self) -> Result<(), LogFailed> {
        self.log.sync()
    }

    // Where it isn't so long, all of it stays.
    fn cut(&mut self, len: u64) -> Result<(), LogFailed> {
        let all = self.log.as_slice().len() as u64;
        self.log.cut(len.min(all))
    }

    fn read_all(&mut self) -> Result<Piece, ReadAllFault> {
        let mut bytes = self.log.read_all()?.into_vec();
        if let Some(byte) = bytes.get_mut(self.place) {
            *byte = self.byte;
        }
        Ok(Piece::from_vec(bytes))
    }
}

// Node 2 asks the leader to let it in, at (10, 0, 0).
const JOIN: &[u8] = b"\x01\x01\0\0\0\x02\0\0\0\x01\x01\x01\0\0\0\x02\x7f\0\0\x01\x23\x2a\0\0\0\x0a\
    \0\0\0\0\0\0\0\0";

// The log of a leader that let node 2 in.
fn written<R: AllocGlobal + Abort>(rt: &R, place: usize, byte: u8) -> Untold {
    let log = Untold {
        log: CleanLog::new(rt.alloc()),
        place,
        byte,
    };
    let me = Member {
        id: NodeId::new(1).expect(rt, "id"),
        addr: Addr::new([127, 0, 0, 1], 9001).expect(rt, "address"),
        at: Point::new(0, 0, 0).expect(rt, "point"),
    };
    let node = boot_leader(rt.alloc(), me, CleanLink::new(rt.alloc()), log).ok();
    let After { node, note: _ } = node.expect(rt, "started").deliver(JOIN);
    closed(node).expect(rt, "closed")
}

// The log of a leader after a close.
fn closed(node: State<CleanLink, Untold>) -> Option<Untold> {
    let State::Leading(node) = node else {
        return None;
    };
    let After { node, note: _ } = node.close();
    match node {
        State::Leading(node) => Some(node.stop().1),
        _ => None,
    }
}

// Where node 2 stands for the leader that the log gives.
fn point_of_2<R: AllocGlobal + Abort>(rt: &R, log: Untold) -> Option<Point> {
    let two = NodeId::new(2).expect(rt, "id");
    match recover(rt.alloc(), CleanLink::new(rt.alloc()), log) {
        State::Leading(node) => Some(node.view().place(two)?.1.at),
        _ => None,
    }
}

#[test]
fn a_changed_byte_is_taken_as_it_is(rt: HostRuntime) {
    // The last byte of the joiner's first axis.
    let point = point_of_2(&rt, written(&rt, 63, 30));
    assert_eq!(rt; point, Point::new(30, 0, 0));
    // The kind of the second entry: no node has a log with that.
    assert_eq!(rt; point_of_2(&rt, written(&rt, 43, 9)), None);
}
