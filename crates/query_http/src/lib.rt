//! The HTTP form of the query interface: parses a request's target into a query, and writes responses.
//!
//! * `paths`: the endpoints and their paths.
//! * `number`: numbers and durations.
//! * `tags`: the tags of a search.
//! * `query_string`: the parameters of a query string.
//! * `query`: the query of a target.
//! * `response`: the bytes of a response. `status`: the statuses of responses.
//! * `fault`: why a target isn't a query.
//! * `laws`: facts about the definitions.
#![tactic(auto)]

mod fault;
pub mod laws;
mod number;
mod paths;
mod query;
mod query_string;
mod response;
mod status;
mod tags;

pub use fault::{Parameter, QueryFault};
pub use paths::{Endpoint, endpoints, find_endpoint};
pub use query::{parse_query, read_query, split_target};
pub use response::{respond, response_head};
pub use status::Status;
