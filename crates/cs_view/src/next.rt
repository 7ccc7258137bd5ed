use crate::View;

/// What a node is after a step: a member with the view of the next epoch, or departed, where that epoch says that it
/// left.
#[derive(Debug, Drop)]
pub enum Next {
    Member(View),
    Departed,
}
