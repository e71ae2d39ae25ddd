use crate::JsonText;
use flow_values::{Items, Name};

/// A JSON value with integers only, and without null.
#[derive(Drop)]
#[cycle(json)]
pub enum Json {
    /// `true` or `false`.
    Bool(bool),
    /// An integer.
    Integer(i64),
    /// A string.
    String(JsonText),
    /// A list.
    Array(Items<Json>),
    /// An object. It is ordered if its names are strictly ascending by their bytes.
    Object(Items<Field>),
}

/// A member of an object: its name and its value.
#[derive(Drop)]
#[cycle(json)]
pub struct Field {
    pub name: Name,
    pub value: Json,
}
