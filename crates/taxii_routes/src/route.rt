use flow_values::Text;

/// The resource that a path names (TAXII 2.1, sections 4 and 5), with the raw path segments, which
/// are not decoded.
#[derive(Debug, Drop)]
pub enum Route {
    /// `/taxii2/`
    Discovery,
    /// `/api/`
    Root,
    /// `/api/status/{id}/`
    Status(Text),
    /// `/api/collections/`
    Collections,
    /// `/api/collections/{id}/`
    Collection(Text),
    /// `/api/collections/{id}/manifest/`
    Manifest(Text),
    /// `/api/collections/{id}/objects/`
    Objects(Text),
    /// `/api/collections/{id}/objects/{object}/`
    Object { collection: Text, object: Text },
    /// `/api/collections/{id}/objects/{object}/versions/`
    Versions { collection: Text, object: Text },
    /// None of these paths.
    None,
}
