ghost use Rattle.std.specs.Prelude.{◌≡◌, ◌++◌, ℕ, List, [], IfOk, IfErr, MatchOption, OnOk};
ghost use Rattle.matchit.specs.declared.error.InsertError.TheVariants.{OutOfMemory};
ghost use Rattle.query_http.specs.Paths.{endpoint_rows, IsPath, IsNoPath};

use matchit::{InsertError, Router};
use std::alloc::Global;

/// The endpoints.
#[derive(Clone, Copy, Debug, PartialEq, Eq)]
pub enum Endpoint {
    /// `/api/traces`: a search, or a batch that a client posts.
    Traces,
    /// `/api/traces/{id}`: one trace.
    Trace,
    /// `/api/services`.
    Services,
    /// `/api/services/{service}/operations`: the operation names of a service.
    OperationNames,
    /// `/api/operations`: the operations of a service with their kinds.
    Operations,
    /// `/api/dependencies`.
    Dependencies,
}

/// Adds all endpoints to an empty router.
fn add_endpoints(router: &mut Router<Endpoint>) -> Result<(), InsertError>
    requires { router.old ≡ [] }
    ensures found { OnOk result (router.new ≡ endpoint_rows) }
    ensures memory { IfErr result (λ e. e ≡ OutOfMemory) }
{
    router.insert("/api/traces", Endpoint::Traces)?;
    router.insert("/api/traces/{id}", Endpoint::Trace)?;
    router.insert("/api/services", Endpoint::Services)?;
    router.insert(
        "/api/services/{service}/operations",
        Endpoint::OperationNames,
    )?;
    router.insert("/api/operations", Endpoint::Operations)?;
    router.insert("/api/dependencies", Endpoint::Dependencies)?;
    Ok(())
}

/// Returns a router with all endpoints.
///
/// # Errors
///
/// Out of memory, and nothing else.
pub fn endpoints(alloc: Global) -> Result<Router<Endpoint>, InsertError>
    ensures found { IfOk result (λ r. r ≡ endpoint_rows) }
    ensures memory { IfErr result (λ e. e ≡ OutOfMemory) }
{
    let mut router = Router::new(alloc);
    match add_endpoints(&mut router) {
        Ok(()) => Ok(router),
        Err(error) => {
            // For the prover: an explicit drop is cheaper than one at the end of the block.
            drop(router);
            Err(error)
        }
    }
}

/// Strips a prefix from a path.
fn strip_prefix<'p>(path: &'p str, front: &str) -> &'p str
    requires { (rest : List ℕ) × (path.now ≡ front.now ++ rest) }
    ensures { path.now ≡ front.now ++ result.now }
{
    match path.strip_prefix(front) {
        Some(rest) => rest,
        None => unreachable!(),
    }
}

/// Strips a suffix from a path.
fn strip_suffix<'p>(path: &'p str, end: &str) -> &'p str
    requires { (part : List ℕ) × (path.now ≡ part ++ end.now) }
    ensures { path.now ≡ result.now ++ end.now }
{
    match path.strip_suffix(end) {
        Some(part) => part,
        None => unreachable!(),
    }
}

/// Returns the part of an endpoint's path, not decoded; empty if the endpoint has none.
fn part_of(endpoint: Endpoint, path: &str) -> &str
    requires { (part : List ℕ) × IsPath endpoint part path.now }
    ensures { IsPath endpoint result.now path.now }
{
    match endpoint {
        Endpoint::Trace => strip_prefix(path, "/api/traces/"),
        Endpoint::OperationNames => strip_suffix(
            strip_prefix(path, "/api/services/"),
            "/operations",
        ),
        Endpoint::Traces | Endpoint::Services | Endpoint::Operations | Endpoint::Dependencies => "",
    }
}

/// Looks up a path in the router.
fn endpoint_of(router: &Router<Endpoint>, path: &str) -> Option<Endpoint>
    requires { router.now ≡ endpoint_rows }
    ensures { MatchOption result (IsNoPath path.now) (λ e.
        (part : List ℕ) × IsPath e part path.now) }
{
    // For the prover: the match takes the clauses `found` and `missing` of `at` apart.
    match router.at(path) {
        Ok(found) => Some(*found.value),
        Err(_) => None,
    }
}

/// Returns the endpoint of a path and the path's part, not decoded; the part is empty if the endpoint has
/// none. Returns `None` if no endpoint has the path.
pub fn find_endpoint<'p>(router: &Router<Endpoint>, path: &'p str) -> Option<(Endpoint, &'p str)>
    requires { router.now ≡ endpoint_rows }
    ensures { MatchOption result (IsNoPath path.now) (λ r. IsPath r.0 r.1.now path.now) }
{
    let endpoint = endpoint_of(router, path)?;
    Some((endpoint, part_of(endpoint, path)))
}
