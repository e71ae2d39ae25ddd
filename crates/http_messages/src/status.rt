ghost use Rattle.std.specs.Prelude.{◌≡◌, Some};
ghost use Rattle.http.specs.StatusCode.{reason_phrase};
ghost use Rattle.http_messages.specs.Statuses.{code_of, phrase_of};

use http::StatusCode;

/// A response status (RFC 9110, section 15): those that this server sends.
#[derive(Clone, Copy, Debug, PartialEq, Eq, Hash)]
pub enum Status {
    Okay,
    Accepted,
    BadRequest,
    Forbidden,
    NotFound,
    MethodNotAllowed,
    NotAcceptable,
    LengthRequired,
    PayloadTooLarge,
    UnsupportedMediaType,
    UnprocessableEntity,
    HeadTooLarge,
    InternalServerError,
    NotImplemented,
    ServiceUnavailable,
}

impl Status {
    /// The three-digit code.
    pub fn code(self) -> u16
        ensures { result ≡ code_of self }
    {
        self.known().as_u16()
    }

    /// The reason phrase.
    pub fn phrase(self) -> &'static str
        ensures phrase { result.now ≡ phrase_of self }
        ensures known { reason_phrase (code_of self) ≡ Some result.now }
    {
        self.known().canonical_reason().unwrap_or("")
    }

    /// The status as a type of the crate `http`.
    fn known(self) -> StatusCode
        ensures { result ≡ code_of self }
    {
        match self {
            Status::Okay => StatusCode::OK,
            Status::Accepted => StatusCode::ACCEPTED,
            Status::BadRequest => StatusCode::BAD_REQUEST,
            Status::Forbidden => StatusCode::FORBIDDEN,
            Status::NotFound => StatusCode::NOT_FOUND,
            Status::MethodNotAllowed => StatusCode::METHOD_NOT_ALLOWED,
            Status::NotAcceptable => StatusCode::NOT_ACCEPTABLE,
            Status::LengthRequired => StatusCode::LENGTH_REQUIRED,
            Status::PayloadTooLarge => StatusCode::PAYLOAD_TOO_LARGE,
            Status::UnsupportedMediaType => StatusCode::UNSUPPORTED_MEDIA_TYPE,
            Status::UnprocessableEntity => StatusCode::UNPROCESSABLE_ENTITY,
            Status::HeadTooLarge => StatusCode::REQUEST_HEADER_FIELDS_TOO_LARGE,
            Status::InternalServerError => StatusCode::INTERNAL_SERVER_ERROR,
            Status::NotImplemented => StatusCode::NOT_IMPLEMENTED,
            Status::ServiceUnavailable => StatusCode::SERVICE_UNAVAILABLE,
        }
    }
}
