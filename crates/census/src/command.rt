use crate::form::Form;

/// What the words of the program ask for.
#[derive(Clone, Copy, Debug, PartialEq, Eq)]
pub enum Command {
    /// The lines of the source happen, under a form.
    Tell(Form),
    /// The schedule of so many nodes and of a seed happens.
    Drill { nodes: u32, seed: u64 },
    /// The plan of a live run of so many nodes happens, whose ports come behind this one.
    Live { nodes: u32, port: u16 },
}
