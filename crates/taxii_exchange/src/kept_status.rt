use flow_values::Text;

/// A status that clients may request.
#[derive(Drop)]
pub struct KeptStatus {
    /// Its identifier.
    pub id: Text,
    /// Its body, as JSON.
    pub body: Text,
}
