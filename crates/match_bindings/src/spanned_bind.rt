use crate::Bind;
use crate::span::Span;

/// A binding with its span.
#[derive(Drop)]
pub(crate) struct SpannedBind {
    pub bind: Bind,
    pub span: Span,
}
