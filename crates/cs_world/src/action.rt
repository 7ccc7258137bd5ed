//! What a line does to a node, whether it is up or down.

ghost use Rattle.std.specs.Prelude.{◌≡◌, None};
ghost use Rattle.cs_node.specs.Told.{link_told, log_told};
ghost use Rattle.cs_world.specs.Actions.{DoesArm, DoesCall, DoesCrash, DoesRestart, DoesAction, Recovers};
ghost use Rattle.cs_world.specs.Actions.{rearmed, unless_torn};
ghost use Rattle.cs_world.specs.Processes.{parts_in};
ghost use Rattle.cs_world.specs.declared.call.Call.TheVariants as calls;

use crate::call::{Answer, Call, Called, Refusal, call_on};
use cs_core::ViewPool;
use cs_link::Link;
use cs_log::{Armed, Log};
use cs_node::{Process, State, recover};
use std::alloc::Global;

/// What a line does to the node in a seat.
#[derive(Debug, Drop)]
pub enum Action<'a> {
    Call(Call<'a>),
    /// The node loses what it is, and keeps its link and its log.
    Crash,
    /// One that is down comes back from its log.
    Restart,
    /// The next write to its log is to tear after so many bytes.
    Arm(u64),
}

/// A process after an action, and its answer.
pub struct Changed<L: Link, G: Log> {
    pub process: Process<L, G>,
    pub answer: Answer,
}

impl<L: Link, G: Log> Changed<L, G> {
    // One that is down refuses.
    fn refused(alloc: Global, link: L, log: G) -> Self
        ensures node { result.process.node ≡ None }
        ensures link { result.process.link ≡ link }
        ensures log { result.process.log ≡ log }
        ensures answer { result.answer ≡ Answer.Refused Refusal.Down }
    {
        Changed {
            process: Process::down(alloc, link, log),
            answer: Answer::Refused(Refusal::Down),
        }
    }
}

/// The action on a process.
pub fn act_on<L: Link, G: Armed>(
    alloc: Global,
    pool: &ViewPool,
    process: Process<L, G>,
    action: &Action<'_>,
) -> Changed<L, G>
    ensures { DoesAction (parts_in L.Link G.Log process) action.now result.answer
        (parts_in L.Link G.Log result.process) }
{
    match action {
        Action::Call(to_do) => call(alloc, process, to_do),
        Action::Crash => crash(alloc, process),
        Action::Restart => restart(alloc, pool, process),
        Action::Arm(b) => arm(process, *b),
    }
}

// The answer, but where a number was armed and none is any more: there it tore the write, and the node is down.
fn unless_torn(was_armed: Option<u64>, armed: Option<u64>, answer: Answer) -> Answer
    ensures { result ≡ unless_torn was_armed armed answer }
{
    match (was_armed, armed) {
        (Some(_), None) => Answer::Torn,
        _ => answer,
    }
}

/// Bytes come to a process. Where no node runs it refuses them.
pub fn deliver<L: Link, G: Armed>(process: &mut Process<L, G>, bytes: &[u8]) -> Answer
    ensures { DoesCall (parts_in L.Link G.Log process.old) (calls.Deliver bytes.entry) result
        (parts_in L.Link G.Log process.new) }
{
    let was_armed = process.armed();
    let Some(note) = process.deliver(bytes) else {
        return Answer::Refused(Refusal::Down);
    };
    unless_torn(was_armed, process.armed(), Answer::Noted(note))
}

// The call on a node that is up.
fn call<L: Link, G: Armed>(alloc: Global, process: Process<L, G>, to_do: &Call<'_>) -> Changed<L, G>
    ensures { DoesCall (parts_in L.Link G.Log process) to_do.now result.answer
        (parts_in L.Link G.Log result.process) }
{
    match process.state() {
        Ok(state) => {
            let was_armed = state.armed();
            let Called { state, answer } = call_on(state, to_do);
            let answer = unless_torn(was_armed, state.armed(), answer);
            Changed {
                process: Process::of(alloc, state),
                answer,
            }
        }
        Err((link, log)) => Changed::refused(alloc, link, log),
    }
}

fn crash<L: Link, G: Log>(alloc: Global, process: Process<L, G>) -> Changed<L, G>
    ensures { DoesCrash (parts_in L.Link G.Log process) result.answer (parts_in L.Link G.Log result.process) }
{
    match process.state() {
        Ok(state) => {
            let (link, log) = state.stop();
            Changed {
                process: Process::down(alloc, link, log),
                answer: Answer::Down,
            }
        }
        Err((link, log)) => Changed::refused(alloc, link, log),
    }
}

fn restart<L: Link, G: Armed>(
    alloc: Global,
    pool: &ViewPool,
    process: Process<L, G>,
) -> Changed<L, G>
    ensures { DoesRestart (parts_in L.Link G.Log process) result.answer (parts_in L.Link G.Log result.process) }
{
    match process.state() {
        Ok(state) => Changed {
            process: Process::of(alloc, state),
            answer: Answer::Refused(Refusal::Up),
        },
        Err((link, log)) => bring_back(alloc, pool, link, log),
    }
}

// What is armed waits for a write.
fn rearm<G: Armed>(log: &mut G)
    ensures { log_told G.Log log.new ≡ rearmed (log_told G.Log log.old) }
{
    if let Some(b) = log.armed() {
        log.arm(b);
    }
}

// What the log brings back. The sync of the recovery is no write.
fn bring_back<L: Link, G: Armed>(
    alloc: Global,
    pool: &ViewPool,
    link: L,
    mut log: G,
) -> Changed<L, G>
    ensures link { link_told L.Link result.process.link ≡ link_told L.Link link }
    ensures log { Recovers (rearmed (log_told G.Log log)) result.answer result.process.node
        (log_told G.Log result.process.log) }
{
    rearm(&mut log);
    match recover(alloc, link, log) {
        State::Stopped(stopped) => {
            let why = stopped.why;
            let (link, log) = stopped.stop();
            Changed {
                process: Process::down(alloc, link, log),
                answer: Answer::Stopped(why),
            }
        }
        state => Changed {
            process: Process::of(alloc, state.sharing(pool.share())),
            answer: Answer::Back,
        },
    }
}

fn arm<L: Link, G: Armed>(mut process: Process<L, G>, b: u64) -> Changed<L, G>
    ensures { DoesArm (parts_in L.Link G.Log process) b result.answer (parts_in L.Link G.Log result.process) }
{
    process.arm(b);
    Changed {
        process,
        answer: Answer::Armed(b),
    }
}
