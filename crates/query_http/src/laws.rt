//! Facts about the definitions. Each function has an empty body; its contract states the fact.

ghost use Rattle.std.specs.Prelude.{◌≡◌, ℕ, List};
ghost use Rattle.query_http.specs.declared.paths.Endpoint.{Endpoint as EndpointValue};
ghost use Rattle.query_http.specs.Paths.{IsPath};

/// A path has at most one endpoint, with one part.
pub fn a_path_has_one_endpoint()
    ensures { (e f : EndpointValue) (p q path : List ℕ) → IsPath e p path → IsPath f q path →
        (e ≡ f) × (p ≡ q) }
{}
