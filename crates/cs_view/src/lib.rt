//! A view: the picture of an epoch that a node goes by, and its step to the next epoch.
//!
//! `View::take` makes a view of a picture that anyone sent, where the picture fits together and has the node.
//! `View::apply` steps it to the next epoch by the head of that epoch's slices and their parts for the regions whose
//! rolls are known: the node goes on as a member, or departed. Both refuse what doesn't fit by its first fault.
//! `View::place` says where a member stands, and `View::picture` gives what a snapshot shows of the view:
//! `View::shown_to` to a node that asks for one. A view is a `Sight`. A caller that makes the same step of many views
//! makes their summaries once by `next_summaries`, and hands them to `View::apply_with`.
//!
//! The laws `taken_is_a_picture`, `step_is_a_picture` and `shown_is_a_picture` say that of well-formed pictures and
//! slices only well-formed pictures come, and `taken_again` that a view that was stored is taken as it was.
//!
//! ```text
//! let view = View::take(alloc, me, Mode::Partial, &picture)?;
//! match view.apply(me, Mode::Partial, &slice.head, &parts)? {
//!     Next::Member(next) => ..,
//!     Next::Departed => ..,
//! }
//! ```
#![tactic(auto)]

mod fault;
mod faults;
mod giving;
mod laws;
mod next;
mod pairs;
mod parts;
mod place;
mod step;
mod summaries;
mod taking;
#[cfg(test)]
mod tests;
mod view;

pub use fault::ViewFault;
pub use laws::{
    faults_have_causes, known_rolls_have_members, place_is_a_member, shown_is_a_picture,
    step_is_a_picture, taken_again, taken_is_a_picture,
};
pub use next::Next;
pub use parts::Parts;
pub use summaries::next_summaries;
pub use view::View;
