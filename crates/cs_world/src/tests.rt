//! What each event is told, in some runs, and the lines of answers and packets of each kind. The answers of the runs
//! come from another program of the same specification, which was written apart from this one.

ghost use Rattle.cs_world.specs.Seats.{AreOut};

use crate::lines::{put_note, put_packet};
use crate::posting::post;
use crate::telling::Telling;
use crate::traffic::Traffic;
use crate::{Tap, Tapped, World, WorldFault};
use bytes::Bytes;
use cs_base::{Addr, Change, Epoch, MOST_SENT, Member, NodeId, Point, RegionId};
use cs_core::Unfit;
use cs_fields::PacketFault;
use cs_group::{Verdict, Verdicts};
use cs_link::{CleanLink, Ground, Link, MemDesk, MemLink};
use cs_node::Note;
use cs_packet::decode;
use cs_pending::{Counts, Offer};
use cs_piece::PieceFault;
use cs_script::read_line;
use cs_view::ViewFault;
use std::process::Abort;
use std::test::Fail;

// The leader has the highest id, so that the first member keeps its own changes.
const ONE_RUN: [(&str, &str); 24] = [
    ("lead 9 127.0.0.1:9009 0 0 0", "up 9\n"),
    ("boot 2 127.0.0.1:9002 10 0 0 partial", "up 2\n"),
    ("boot 3 127.0.0.1:9003 20 0 0 partial", "up 3\n"),
    ("join 2", "told\n#1 2>9 report 1\n"),
    ("join 3", "told\n#2 3>9 report 1\n"),
    ("deliver 1", "noted 1 0 0 0\n"),
    ("deliver 2", "noted 1 0 0 0\n"),
    (
        "close",
        "accepted 2 join\n\
         accepted 3 join\n\
         closed 1\n\
         #3 9>2 snap 1 0\n\
         #4 9>3 snap 1 0\n",
    ),
    ("deliver 3", "jumped 1\n"),
    ("deliver 4", "jumped 1\n"),
    ("move 2 15 0 0", "moved 1\nnoted 1 0 0 0\n"),
    ("leave 2", "told\nnoted 0 1 0 0\n"),
    ("leave 3", "told\n#5 3>2 report 1\n"),
    ("deliver 5", "noted 1 0 0 0\n"),
    ("flush 2", "flushed 2\n#6 2>9 report 2\n"),
    ("deliver 6", "noted 2 0 0 0\n"),
    (
        "close",
        "accepted 2 leave\n\
         accepted 3 leave\n\
         closed 2\n\
         #7 9>2 piece 2 0 0\n\
         #8 9>3 piece 2 0 1\n\
         #9 9>2 piece 2 0 2\n\
         #10 9>3 piece 2 0 2\n\
         #11 9>2 piece 2 0 3\n",
    ),
    (
        "deliver 7",
        "held\n#12 2>3 piece 2 0 0\n#13 2>9 piece 2 0 0\n",
    ),
    (
        "deliver 8",
        "held\n#14 3>2 piece 2 0 1\n#15 3>9 piece 2 0 1\n",
    ),
    ("deliver 9", "held\n"),
    (
        "deliver 11",
        "departed\n#16 2>3 piece 2 0 3\n#17 2>9 piece 2 0 3\n",
    ),
    ("deliver 12", "held\n"),
    ("print 2", "departed\n"),
    (
        "print 9",
        "epoch 2\n\
         region 0 1 0 0 0 0 0 0 0 0 0\n\
         global 0 9 127.0.0.1:9009 0 0 0\n\
         member 0 9 127.0.0.1:9009 0 0 0\n\
         inter 0 0\n\
         inter 1 0\n\
         inter 2 0\n\
         inter 3 0\n\
         local 0 0 9\n\
         digest 388c7c2b7afb32b119b94442d013be9d7292ab29424a0ffc4f269407a5bfa885\n\
         end\n",
    ),
];

const REFUSED: [(&str, &str); 38] = [
    ("print 1", "no node\n"),
    ("join 1", "no node\n"),
    ("leave 1", "no node\n"),
    ("flush 1", "no node\n"),
    ("move 1 0 0 0", "no node\n"),
    ("deliver 1", "no packet\n"),
    ("close", "no leader\n"),
    ("boot 2 127.0.0.1:9002 10 0 0 partial", "no leader\n"),
    ("lead 1 127.0.0.1:9001 0 0 0", "up 1\n"),
    ("lead 1 127.0.0.1:9002 0 0 0", "taken\n"),
    ("boot 2 127.0.0.1:9001 10 0 0 partial", "taken\n"),
    ("lead 2 127.0.0.1:9002 0 0 0", "second leader\n"),
    ("boot 2 127.0.0.1:9002 10 0 0 partial", "up 2\n"),
    ("join 1", "member\n"),
    ("leave 1", "leader\n"),
    ("flush 1", "leader\n"),
    ("move 1 0 0 0", "leader\n"),
    ("print 2", "joining\n"),
    ("leave 2", "joining\n"),
    ("flush 2", "joining\n"),
    ("move 2 0 0 0", "joining\n"),
    ("join 2", "told\n#1 2>1 report 1\n"),
    ("deliver 1", "noted 1 0 0 0\n"),
    ("close", "accepted 2 join\nclosed 1\n#2 1>2 snap 1 0\n"),
    ("deliver 2", "jumped 1\n"),
    ("join 2", "member\n"),
    ("flush 2", "nothing\n"),
    ("leave 2", "told\n#3 2>1 report 1\n"),
    ("deliver 3", "noted 1 0 0 0\n"),
    (
        "close",
        "accepted 2 leave\n\
         closed 2\n\
         #4 1>2 piece 2 0 0\n\
         #5 1>2 piece 2 0 1\n\
         #6 1>2 piece 2 0 2\n\
         #7 1>2 piece 2 0 3\n",
    ),
    ("deliver 4", "held\n"),
    ("deliver 5", "held\n#8 2>1 piece 2 0 1\n"),
    ("deliver 6", "departed\n#9 2>1 piece 2 0 3\n"),
    ("join 2", "departed\n"),
    ("leave 2", "departed\n"),
    ("flush 2", "departed\n"),
    ("move 2 0 0 0", "departed\n"),
    ("deliver 7", "departed\n"),
];

// Packets that are lost, delivered and delivered again, in rounds or by their numbers; lines that have no place here.
const SETTLED: [(&str, &str); 27] = [
    ("settle 5", "settled 0\n"),
    ("lead 1 127.0.0.1:9001 0 0 0", "up 1\n"),
    ("boot 2 127.0.0.1:9002 10 0 0 partial", "up 2\n"),
    ("boot 3 127.0.0.1:9003 20 0 0 partial", "up 3\n"),
    ("home 1 127.0.0.1:9001", "not here\n"),
    ("packet 2 00ff", "not here\n"),
    ("crash 4", "no node\n"),
    ("restart 4", "no node\n"),
    ("tear 4 10", "no node\n"),
    ("noise 4 3", "no node\n"),
    ("noise 2 65535", ""),
    ("settle 1000", "settled 0\n"),
    ("join 2", "told\n#1 2>1 report 1\n"),
    ("join 3", "told\n#2 3>1 report 1\n"),
    ("lose 3", "no packet\n"),
    ("lose 2", "lost\n"),
    ("settle 1", "- deliver 1\nnoted 1 0 0 0\nsettled 1\n"),
    ("close", "accepted 2 join\nclosed 1\n#3 1>2 snap 1 0\n"),
    ("deliver 2", "noted 1 0 0 0\n"),
    ("deliver 2", "noted 0 0 1 0\n"),
    ("settle 2", "- deliver 3\njumped 1\nsettled 1\n"),
    ("settle 2", "settled 0\n"),
    (
        "close",
        "accepted 3 join\n\
         closed 2\n\
         #4 1>3 snap 2 0\n\
         #5 1>2 piece 2 0 0\n\
         #6 1>2 piece 2 0 1\n\
         #7 1>2 piece 2 0 2\n\
         #8 1>2 piece 2 0 3\n",
    ),
    (
        "settle 1",
        "- deliver 4\n\
         jumped 2\n\
         - deliver 5\n\
         held\n\
         - deliver 6\n\
         held\n\
         #9 2>1 piece 2 0 1\n\
         - deliver 7\n\
         advanced 2\n\
         #10 2>1 piece 2 0 3\n\
         - deliver 8\n\
         already\n\
         settled 5\n",
    ),
    (
        "settle 9",
        "- deliver 9\nstale 2 2\n- deliver 10\nstale 2 2\nsettled 2\n",
    ),
    ("lose 1", "lost\n"),
    ("settle 1", "settled 0\n"),
];

// Nodes that crash and come back from their logs in each state, and writes that are torn: within a frame in the midst
// of a round, before any byte of one, and behind a frame.
const CRASHED: [(&str, &str); 42] = [
    ("lead 1 127.0.0.1:9001 0 0 0", "up 1\n"),
    ("boot 2 127.0.0.1:9002 10 0 0 partial", "up 2\n"),
    ("boot 3 127.0.0.1:9003 20 0 0 partial", "up 3\n"),
    ("restart 2", "up\n"),
    ("crash 3", "down 3\n"),
    ("crash 3", "down\n"),
    ("join 3", "down\n"),
    ("print 3", "down\n"),
    ("restart 3", "joining\n"),
    ("join 2", "told\n#1 2>1 report 1\n"),
    ("join 3", "told\n#2 3>1 report 1\n"),
    ("crash 1", "down 1\n"),
    ("deliver 1", "down\n"),
    ("close", "down\n"),
    ("restart 1", "leader 0\n"),
    ("deliver 1", "noted 1 0 0 0\n"),
    (
        "settle 1",
        "- deliver 2\n\
         noted 1 0 0 0\n\
         settled 1\n",
    ),
    ("tear 3 20", "armed 20\n"),
    (
        "close",
        "accepted 2 join\n\
         accepted 3 join\n\
         closed 1\n\
         #3 1>2 snap 1 0\n\
         #4 1>3 snap 1 0\n",
    ),
    (
        "settle 1",
        "- deliver 3\n\
         jumped 1\n\
         - deliver 4\n\
         stopped log\n\
         settled 2\n",
    ),
    ("deliver 4", "down\n"),
    ("restart 3", "joining\n"),
    ("deliver 4", "jumped 1\n"),
    ("crash 3", "down 3\n"),
    ("tear 3 0", "armed 0\n"),
    ("tear 3 1000", "armed 1000\n"),
    ("restart 3", "member 1\n"),
    ("move 3 21 0 0", "stopped log\n"),
    ("restart 3", "member 1\n"),
    ("move 3 22 0 0", "moved 2\n#5 3>1 report 1\n"),
    (
        "settle 1",
        "- deliver 5\n\
         noted 1 0 0 0\n\
         settled 1\n",
    ),
    ("tear 1 0", "armed 0\n"),
    ("close", "stopped log\n"),
    ("restart 1", "leader 1\n"),
    ("leave 3", "told\n#6 3>1 report 1\n"),
    (
        "settle 1",
        "- deliver 6\n\
         noted 1 0 0 0\n\
         settled 1\n",
    ),
    (
        "close",
        "accepted 3 leave\n\
         closed 2\n\
         #7 1>2 piece 2 0 0\n\
         #8 1>3 piece 2 0 0\n\
         #9 1>2 piece 2 0 1\n\
         #10 1>3 piece 2 0 2\n\
         #11 1>2 piece 2 0 3\n\
         #12 1>3 piece 2 0 3\n",
    ),
    ("crash 2", "down 2\n"),
    (
        "settle 2",
        "- deliver 7\n\
         down\n\
         - deliver 8\n\
         held\n\
         - deliver 9\n\
         down\n\
         - deliver 10\n\
         held\n\
         #13 3>1 piece 2 0 2\n\
         #14 3>2 piece 2 0 2\n\
         - deliver 11\n\
         down\n\
         - deliver 12\n\
         departed\n\
         - deliver 13\n\
         stale 2 2\n\
         - deliver 14\n\
         down\n\
         settled 8\n",
    ),
    ("restart 2", "member 1\n"),
    ("crash 3", "down 3\n"),
    ("restart 3", "departed\n"),
];

// Nodes that ask another for a snapshot or a slice, in each state: the leader, another member, themselves, and whom
// they don't know.
const ASKED: [(&str, &str); 46] = [
    ("lead 1 127.0.0.1:9001 0 0 0", "up 1\n"),
    ("boot 2 127.0.0.1:9002 10 0 0 partial", "up 2\n"),
    ("boot 3 127.0.0.1:9003 20 0 0 full", "up 3\n"),
    ("ask 4 1", "no node\n"),
    ("need 4 1 0", "no node\n"),
    ("ask 1 2", "leader\n"),
    ("need 1 2 0", "leader\n"),
    ("ask 2 3", "unknown 3\n"),
    ("ask 2 2", "unknown 2\n"),
    ("need 2 1 0", "joining\n"),
    ("ask 2 1", "told\n#1 2>1 ask 0\n"),
    ("settle 1", "- deliver 1\nsilent\nsettled 1\n"),
    ("join 2", "told\n#2 2>1 report 1\n"),
    ("join 3", "told\n#3 3>1 report 1\n"),
    (
        "settle 1",
        "- deliver 2\nnoted 1 0 0 0\n- deliver 3\nnoted 1 0 0 0\nsettled 2\n",
    ),
    (
        "close",
        "accepted 2 join\naccepted 3 join\nclosed 1\n#4 1>2 snap 1 0\n#5 1>3 snap 1 0\n",
    ),
    ("lose 4", "lost\n"),
    ("ask 2 1", "told\n#6 2>1 ask 0\n"),
    (
        "settle 3",
        "- deliver 5\n\
         jumped 1\n\
         - deliver 6\n\
         answered\n\
         #7 1>2 snap 1 0\n\
         - deliver 7\n\
         jumped 1\n\
         settled 3\n",
    ),
    ("ask 2 2", "unknown 2\n"),
    ("ask 2 9", "unknown 9\n"),
    ("need 2 9 0", "unknown 9\n"),
    ("move 2 11 0 0", "moved 1\n#8 2>1 report 1\n"),
    ("settle 1", "- deliver 8\nnoted 1 0 0 0\nsettled 1\n"),
    (
        "close",
        "accepted 2 move\n\
         closed 2\n\
         #9 1>2 piece 2 0 0\n\
         #10 1>3 piece 2 0 0\n\
         #11 1>2 piece 2 0 1\n\
         #12 1>3 piece 2 0 2\n\
         #13 1>2 piece 2 0 3\n\
         #14 1>3 piece 2 0 3\n",
    ),
    ("lose 10", "lost\n"),
    ("lose 12", "lost\n"),
    ("lose 14", "lost\n"),
    (
        "settle 2",
        "- deliver 9\n\
         held\n\
         - deliver 11\n\
         held\n\
         #15 2>1 piece 2 0 1\n\
         #16 2>3 piece 2 0 1\n\
         - deliver 13\n\
         advanced 2\n\
         - deliver 15\n\
         stale 2 2\n\
         - deliver 16\n\
         held\n\
         settled 5\n",
    ),
    ("need 3 2 0", "told\n#17 3>2 need 2 0\n"),
    (
        "settle 2",
        "- deliver 17\n\
         answered\n\
         #18 2>3 slice 2 0\n\
         - deliver 18\n\
         advanced 2\n\
         #19 3>1 piece 2 0 2\n\
         #20 3>2 piece 2 0 2\n\
         settled 2\n",
    ),
    ("leave 2", "told\n#21 2>1 report 1\n"),
    (
        "settle 1",
        "- deliver 19\n\
         stale 2 2\n\
         - deliver 20\n\
         already\n\
         - deliver 21\n\
         noted 1 0 0 0\n\
         settled 3\n",
    ),
    (
        "close",
        "accepted 2 leave\n\
         closed 3\n\
         #22 1>2 piece 3 0 0\n\
         #23 1>3 piece 3 0 0\n\
         #24 1>2 piece 3 0 1\n\
         #25 1>3 piece 3 0 2\n\
         #26 1>2 piece 3 0 3\n\
         #27 1>3 piece 3 0 3\n",
    ),
    ("lose 22", "lost\n"),
    ("lose 24", "lost\n"),
    ("lose 26", "lost\n"),
    (
        "settle 1",
        "- deliver 23\n\
         held\n\
         - deliver 25\n\
         held\n\
         #28 3>1 piece 3 0 2\n\
         #29 3>2 piece 3 0 2\n\
         - deliver 27\n\
         advanced 3\n\
         settled 3\n",
    ),
    ("ask 2 3", "told\n#30 2>3 ask 3\n"),
    ("ask 2 1", "told\n#31 2>1 ask 3\n"),
    (
        "settle 2",
        "- deliver 28\n\
         stale 3 3\n\
         - deliver 29\n\
         held\n\
         - deliver 30\n\
         silent\n\
         - deliver 31\n\
         answered\n\
         #32 1>2 bye 3\n\
         - deliver 32\n\
         departed\n\
         settled 5\n",
    ),
    ("ask 2 1", "departed\n"),
    ("need 2 1 0", "departed\n"),
    ("crash 3", "down 3\n"),
    ("ask 3 1", "down\n"),
    ("need 3 1 0", "down\n"),
];

// A snapshot of epoch 6 from node 1 to node 2: region 0 with node 1 alone, and rolls of regions 0 and 2 without
// members.
const TWO_ROLLS: &[u8] = b"\x01\x06\0\0\0\x01\0\0\0\x02\0\0\0\x06\x01\0\0\0\0\0\0\0\x01\
    \0\0\0\0\0\0\0\0\0\0\0\0\0\0\0\0\0\0\0\0\0\0\0\0\0\0\0\0\0\0\0\0\0\0\0\0\0\0\0\0\0\0\0\0\0\0\0\0\
    \x01\0\0\0\x01\x7f\0\0\x01\x23\x29\0\0\0\0\0\0\0\0\0\0\0\0\x02\0\0\0\0\0\0\0\0\0\x02\0\0";

// What the world tells of the event that the line says.
fn told<R: AllocGlobal + Abort>(
    rt: &R,
    world: &mut World<MemDesk>,
    desk: &mut MemDesk,
    line: &str,
) -> Vec<u8>
    requires { AreOut (⟦<MemDesk as Ground>⟧.out desk.old) world.old.nodes.seats }
    ensures { AreOut (⟦<MemDesk as Ground>⟧.out desk.new) world.new.nodes.seats }
{
    let event = read_line(rt.alloc(), line.as_bytes()).expect(rt, "line");
    let mut text = Vec::from_slice(rt.alloc(), b"told: ").expect(rt, "memory");
    world.step(desk, &event, &mut text).expect(rt, "memory");
    text
}

// Looks at the answers of a run, and hands back the desk.
fn check_run<R: AllocGlobal + Abort>(rt: &R, rows: &[(&str, &str)]) -> MemDesk {
    let mut desk = MemDesk::new(rt.alloc());
    let mut world = World::new(rt.alloc());
    for (line, output) in rows {
        let text = told(rt, &mut world, &mut desk, line);
        assert_eq!(rt; text.get(6..), Some(output.as_bytes()), "at {line}");
    }
    world.finish(&mut desk);
    desk
}

// The node's log, and the datagrams that its link sent.
fn looked_at<'a>(rt: &impl Abort, desk: &'a MemDesk, id: u32) -> (&'a [u8], &'a MemLink) {
    let id = NodeId::new(id).expect(rt, "id");
    assert!(rt; !desk.is_out(id));
    let log = desk.log(id).expect(rt, "log");
    (log.as_slice(), desk.link(id).expect(rt, "link"))
}

#[test]
fn members_join_move_and_leave(rt: HostRuntime) {
    let _desk = check_run(&rt, &ONE_RUN);
}

#[test]
fn packets_are_settled(rt: HostRuntime) {
    let _desk = check_run(&rt, &SETTLED);
}

#[test]
fn what_has_no_place_is_answered(rt: HostRuntime) {
    let _desk = check_run(&rt, &REFUSED);
}

#[test]
fn nodes_crash_and_come_back(rt: HostRuntime) {
    let _desk = check_run(&rt, &CRASHED);
}

#[test]
fn nodes_ask_for_what_they_lack(rt: HostRuntime) {
    let _desk = check_run(&rt, &ASKED);
}

// Looks at the lines of an answer.
fn check_note<R: AllocGlobal + Abort>(rt: &R, note: &Note, output: &str) -> Result<(), Fail> {
    let mut lines = String::new(rt.alloc());
    put_note(&mut lines, note)?;
    assert_eq!(rt; lines.as_str(), output);
    Ok(())
}

#[test]
fn answers_have_lines(rt: HostRuntime) -> Result<(), Fail> {
    let id = NodeId::new(4_294_967_295).ok_or("id")?;
    let have = Epoch::new(3).ok_or("epoch")?;
    let given = Epoch::new(4_294_967_294).ok_or("epoch")?;
    let region = RegionId::new(7).ok_or("region")?;
    let full = Some(Offer::Full);
    let counts = Counts {
        fresh: 1,
        replaced: 2,
        weaker: 3,
        full: 4,
    };
    let rows = [
        (Note::Told { kept: full }, "told\nnoted 0 0 0 1\n"),
        (Note::Moved { seq: 2, kept: None }, "moved 2\n"),
        (Note::SeqSpent, "spent\n"),
        (Note::Flushed(64), "flushed 64\n"),
        (Note::Nothing, "nothing\n"),
        (Note::Unknown(id), "unknown 4294967295\n"),
        (Note::Held, "held\n"),
        (Note::Passed, "passed\n"),
        (Note::Already, "already\n"),
        (Note::Advanced(have), "advanced 3\n"),
        (Note::Jumped(have), "jumped 3\n"),
        (Note::Departed, "departed\n"),
        (Note::Stale { have, given }, "stale 3 4294967294\n"),
        (Note::Early { have, given }, "early 3 4294967294\n"),
        (Note::Answered, "answered\n"),
        (Note::Silent, "silent\n"),
        (Note::Noted(counts), "noted 1 2 3 4\n"),
        (Note::Idle, "idle\n"),
        (Note::NotMine(id), "not mine 4294967295\n"),
        (Note::Bad(PacketFault::Short(0)), "bad short 0\n"),
        (Note::Bad(PacketFault::Extra(14)), "bad extra 14\n"),
        (Note::Bad(PacketFault::Version(2)), "bad version 2\n"),
        (Note::Bad(PacketFault::Kind(8)), "bad kind 8\n"),
        (Note::Bad(PacketFault::Value(2)), "bad value 2\n"),
        (
            Note::Unfit(Unfit::View(ViewFault::Region(7))),
            "unfit region 7\n",
        ),
        (
            Note::Unfit(Unfit::View(ViewFault::Part(region))),
            "unfit part 7\n",
        ),
        (
            Note::Unfit(Unfit::View(ViewFault::Roll(region))),
            "unfit roll 7\n",
        ),
        (Note::Unfit(Unfit::View(ViewFault::Size)), "unfit size\n"),
        (
            Note::Unfit(Unfit::View(ViewFault::Absent)),
            "unfit absent\n",
        ),
        (
            Note::Unfit(Unfit::Piece(PieceFault::Length)),
            "unfit piece length\n",
        ),
        (
            Note::Unfit(Unfit::Piece(PieceFault::Padding)),
            "unfit piece padding\n",
        ),
        (
            Note::Unfit(Unfit::Bytes(PacketFault::Short(9))),
            "unfit bytes short 9\n",
        ),
        (Note::Unfit(Unfit::Name), "unfit name\n"),
        (Note::Unfit(Unfit::Heads(region)), "unfit heads 7\n"),
        (Note::Spent, "spent\n"),
        (Note::LogFault, "stopped log\n"),
    ];
    for (note, output) in &rows {
        check_note(&rt, note, output)?;
    }
    Ok(())
}

#[test]
fn verdicts_have_words(rt: HostRuntime) -> Result<(), Fail> {
    let id = NodeId::new(2).ok_or("id")?;
    let addr = Addr::new([127, 0, 0, 1], 9002).ok_or("address")?;
    let at = Point::new(0, 0, 0).ok_or("point")?;
    let mut verdicts = Verdicts::new(rt.alloc());
    for (change, verdict) in [
        (Change::Join(Member { id, addr, at }), Verdict::Retired),
        (Change::Join(Member { id, addr, at }), Verdict::Full),
        (Change::Move { id, seq: 1, at }, Verdict::Accepted),
        (Change::Move { id, seq: 1, at }, Verdict::Stale),
        (Change::Leave { id }, Verdict::Absent),
        (Change::Leave { id }, Verdict::Leader),
    ] {
        verdicts.push((change, verdict))?;
    }
    let epoch = Epoch::new(7).ok_or("epoch")?;
    let output = "refused 2 join retired\n\
                  refused 2 join full\n\
                  accepted 2 move\n\
                  refused 2 move stale\n\
                  refused 2 leave absent\n\
                  refused 2 leave leader\n\
                  closed 7\n";
    check_note(&rt, &Note::Closed { epoch, verdicts }, output)
}

#[test]
fn packets_have_lines(rt: HostRuntime) -> Result<(), Fail> {
    let rows: [(&[u8], &str); 7] = [
        (
            b"\x01\x01\0\0\0\x02\0\0\0\x01\x01\x03\0\0\0\x02",
            "#5 2>1 report 1\n",
        ),
        (
            b"\x01\x02\0\0\0\x02\0\0\0\x01\0\0\0\x06\0\0\0\x07\x03\0\0\0\x01\0",
            "#5 2>1 piece 6 7 3\n",
        ),
        (
            b"\x01\x03\0\0\0\x02\0\0\0\x01\x7f\0\0\x01\x23\x2a\0\0\0\0\x06\0\0\0\x07",
            "#5 2>1 need 6 7\n",
        ),
        (
            b"\x01\x04\0\0\0\x02\0\0\0\x01\0\0\0\x06\0\0\0\x07\0\0\0\0\0",
            "#5 2>1 slice 6 7\n",
        ),
        (
            b"\x01\x05\0\0\0\x02\0\0\0\x01\x7f\0\0\x01\x23\x2a\0\0\0\0\0",
            "#5 2>1 ask 0\n",
        ),
        (TWO_ROLLS, "#5 1>2 snap 6 0,2\n"),
        (b"\x01\x07\0\0\0\x01\0\0\0\x02\0\0\0\x06", "#5 1>2 bye 6\n"),
    ];
    for (bytes, output) in rows {
        let packet = decode(rt.alloc(), bytes)?;
        let mut line = String::new(rt.alloc());
        put_packet(&mut line, 5, &packet)?;
        assert_eq!(rt; line.as_str(), output);
    }
    Ok(())
}

#[test]
fn sent_bytes_have_a_limit(rt: HostRuntime) -> Result<(), Fail> {
    let addr = Addr::new([127, 0, 0, 1], 9002).ok_or("address")?;
    // A bye has 14 bytes.
    let bye = Bytes::from_static(b"\x01\x07\0\0\0\x01\0\0\0\x02\0\0\0\x06");
    let mut text = String::new(rt.alloc());
    let mut traffic = Traffic::new(rt.alloc());
    traffic.bytes = MOST_SENT - 28;
    post(Telling::Names, addr, bye.clone()?, &mut traffic, &mut text)?;
    post(Telling::Bytes, addr, bye.clone()?, &mut traffic, &mut text)?;
    assert_eq!(rt;
        text.as_str(),
        "#1 1>2 bye 6\n#2 127.0.0.1:9002 0107000000010000000200000006\n"
    );
    let beyond = post(Telling::Names, addr, bye, &mut traffic, &mut text);
    assert_eq!(rt; beyond, Err(WorldFault::Limit));
    assert_eq!(rt; traffic.len(), 2);
    Ok(())
}

// Two nodes, one of which joins.
const JOINED: [(&str, &str); 7] = [
    ("lead 1 127.0.0.1:9001 0 0 0", "up 1\n"),
    ("boot 2 127.0.0.1:9002 10 0 0 partial", "up 2\n"),
    ("join 2", "told\n#1 2>1 report 1\n"),
    ("deliver 1", "noted 1 0 0 0\n"),
    ("close", "accepted 2 join\nclosed 1\n#2 1>2 snap 1 0\n"),
    ("deliver 2", "jumped 1\n"),
    ("deliver 2", "stale 1 1\n"),
];

// The leader's log: how it started, and the first item.
const LEADER_LOG: &[u8] =
    b"\0\0\0\x23\x01\x01\0\0\0\x01\x7f\0\0\x01\x23\x29\0\0\0\0\0\0\0\0\0\0\0\0\x01\
    \0\0\0\x01\x7f\0\0\x01\x23\x29\
    \0\0\0\x1d\x06\0\0\0\x01\x01\x01\0\0\0\x02\x7f\0\0\x01\x23\x2a\0\0\0\x0a\0\0\0\0\0\0\0\0";

// The request of the other node to join.
const REPORT: &[u8] =
    b"\x01\x01\0\0\0\x02\0\0\0\x01\x01\x01\0\0\0\x02\x7f\0\0\x01\x23\x2a\0\0\0\x0a\
    \0\0\0\0\0\0\0\0";

#[test]
fn logs_and_links_are_handed_back(rt: HostRuntime) -> Result<(), Fail> {
    let leader = Addr::new([127, 0, 0, 1], 9001).ok_or("address")?;
    let desk = check_run(&rt, &JOINED);
    let (log, link) = looked_at(&rt, &desk, 1);
    assert_eq!(rt; log, LEADER_LOG);
    assert!(rt; link.sent(0).is_some());
    assert!(rt; link.sent(1).is_none());
    let (log, link) = looked_at(&rt, &desk, 2);
    // It started, and took a view of 158 bytes.
    assert_eq!(rt; log.len(), 39 + 162);
    assert_eq!(rt; link.sent(0), Some((leader, REPORT)));
    assert!(rt; link.sent(1).is_none());
    assert_eq!(rt; (desk.link_faults(), desk.log_faults()), (0, 0));
    Ok(())
}

// A leader whose first item is torn.
const TORN: [(&str, &str); 6] = [
    ("lead 1 127.0.0.1:9001 0 0 0", "up 1\n"),
    ("boot 2 127.0.0.1:9002 10 0 0 partial", "up 2\n"),
    ("join 2", "told\n#1 2>1 report 1\n"),
    ("deliver 1", "noted 1 0 0 0\n"),
    ("tear 1 5", "armed 5\n"),
    ("close", "stopped log\n"),
];

#[test]
fn a_torn_log_is_handed_back(rt: HostRuntime) {
    let desk = check_run(&rt, &TORN);
    let (log, link) = looked_at(&rt, &desk, 1);
    // Its first entry has 39 bytes.
    assert_eq!(rt; Some(log), LEADER_LOG.get(..39 + 5));
    assert!(rt; link.sent(0).is_none());
    assert_eq!(rt; desk.log_faults(), 0);
}

#[test]
fn a_world_is_looked_at(rt: HostRuntime) {
    let id = NodeId::new(2).expect(&rt, "id");
    let mut desk = MemDesk::new(rt.alloc());
    let mut world = World::new(rt.alloc());
    let _led = told(&rt, &mut world, &mut desk, "lead 2 127.0.0.1:9002 10 0 0");
    assert_eq!(rt; world.view(id).map(|view| view.epoch().get()), Some(0));
    let digest = world.digest(id).expect(&rt, "memory");
    assert_eq!(rt; digest.map(|told| told.0.get()), Some(0));
    let _closed = told(&rt, &mut world, &mut desk, "close");
    assert_eq!(rt; world.sent(), (0, 0));
    assert!(rt; desk.is_out(id));
    world.finish(&mut desk);
    assert!(rt; !desk.is_out(id));
}

// Makes room for a datagram and sends it: whether that succeeds.
fn sends<L: Link>(rt: &impl Abort, link: &mut L, port: u16, bytes: &[u8]) -> bool {
    let addr = Addr::new([127, 0, 0, 1], port).expect(rt, "address");
    link.ready(1, bytes.len() as u64).expect(rt, "memory");
    link.send(addr, bytes).is_ok()
}

#[test]
fn what_was_sent_is_copied_and_what_failed_is_not(rt: HostRuntime) -> Result<(), Fail> {
    let addr = Addr::new([127, 0, 0, 1], 9003).ok_or("address")?;
    let mut link = MemLink::new(rt.alloc());
    link.fail(2)?;
    let mut tap = Tap::new(rt.alloc(), link);
    assert!(rt; sends(&rt, &mut tap, 9001, b"ab"));
    assert!(rt; !sends(&rt, &mut tap, 9002, b"lost"));
    assert!(rt; sends(&rt, &mut tap, 9003, b"c"));
    assert_eq!(rt; tap.count(), 2);
    assert_eq!(rt; tap.share(1)?, Some((addr, Bytes::from_static(b"c"))));
    assert_eq!(rt; tap.share(2)?, None);
    assert_eq!(rt; tap.into_inner().faults(), 1);
    Ok(())
}

#[test]
fn the_inner_link_has_sent_what_was_copied(rt: HostRuntime) -> Result<(), Fail> {
    let addr = Addr::new([127, 0, 0, 1], 9001).ok_or("address")?;
    let mut tap = Tap::new(rt.alloc(), CleanLink::new(rt.alloc()));
    assert!(rt; sends(&rt, &mut tap, 9001, b"ab"));
    assert_eq!(rt; tap.count(), 1);
    let link = tap.into_inner();
    assert_eq!(rt; link.sent(0), Some((addr, b"ab".as_slice())));
    Ok(())
}
