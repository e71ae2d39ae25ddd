use crate::Window;
use crate::store::Store;

/// The left operands of an enclosing `FOLLOWEDBY`, while its right side takes a row: the stored
/// partial matches, and the window of the store on the right.
#[derive(Drop)]
pub struct PendingLeft {
    pub left: Store,
    pub window: Window,
}
