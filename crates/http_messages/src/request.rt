use crate::{Body, Method};
use flow_values::Text;

/// A complete request.
#[derive(Debug, Drop)]
pub struct Request {
    pub method: Method,
    /// The target, as written in the request line.
    pub target: Text,
    /// The values of all Accept fields, joined by a comma and a space.
    pub accept: Option<Text>,
    /// The value of the first Content-Type field.
    pub content_type: Option<Text>,
    /// The body: as many bytes as Content-Length says, or none.
    pub body: Body,
    /// Whether the client or HTTP/1.0 asks for the connection to be closed after the response.
    pub close: bool,
}
