use crate::{Json, JsonRefusal};

/// An item of a list, checked on its own: a JSON value, or its refusal.
#[derive(Drop)]
pub enum Entry {
    Good(Json),
    /// `TooDeep`, `NotWhole`, `Null` or `OutOfRange`.
    Bad(JsonRefusal),
}
