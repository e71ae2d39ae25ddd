use flow_values::Name;

/// An identifier, owned: the object type (`kind`) and the 128-bit number of its UUID.
#[derive(Debug, Drop)]
pub struct Id {
    pub kind: Name,
    pub number: u128,
}
