use batch_codec::DecodeError;
use jaeger_model::Batch;
use query_http::{Endpoint, Parameter};
use trace_model::Query;

/// An error reply that doesn't ask the store.
#[derive(Clone, Copy, Debug, PartialEq, Eq)]
pub enum ErrorReply {
    NoSuchPath,
    /// The endpoint accepts other methods.
    MethodNotAllowed(Endpoint),
    /// The body has a content coding, or another type than the binary Thrift protocol.
    UnsupportedMediaType,
    BadBatch(DecodeError),
    BadParameter(Parameter),
    /// Memory ran out for the batch.
    NoMemory,
}

/// What a request asks of the store, or the error reply to it.
#[derive(Debug, Drop)]
pub enum Verdict {
    Submit(Batch),
    Ask(Query),
    Reject(ErrorReply),
}
