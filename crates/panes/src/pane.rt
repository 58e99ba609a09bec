//! A pane of the viewer.

/// The size of a pane.
#[derive(Clone, Copy, PartialEq, Eq, Debug)]
pub struct Pane {
    pub width: u64,
    pub height: u64,
}
