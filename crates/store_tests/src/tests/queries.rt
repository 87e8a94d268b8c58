//! Queries for the operations of a service.

use jaeger_model::Text;
use std::alloc::{AllocError, Global};
use trace_model::Query;

/// A query for the names of the service's operations.
pub(crate) fn operation_names(alloc: Global, service: &str) -> Result<Query, AllocError> {
    let service = Text::from_str(alloc, service)?;
    Ok(Query::OperationNames { service })
}

/// A query for the operations of the service, of the kind if it isn't empty.
pub(crate) fn operations(alloc: Global, service: &str, kind: &str) -> Result<Query, AllocError> {
    let service = Text::from_str(alloc, service)?;
    let kind = Text::from_str(alloc, kind)?;
    Ok(Query::Operations { service, kind })
}
