/// From a parent to a child.
#[derive(Clone, Copy, Debug, PartialEq, Eq)]
pub struct Edge {
    pub parent: u32,
    pub child: u32,
}
