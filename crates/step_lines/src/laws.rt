//! Facts about the definitions. Each function does nothing, and its contract is the fact.

ghost use Rattle.std.specs.Prelude.{◌≡◌, ◌≢◌, ◌↔◌, ◌∷◌, ◌++◌, ℕ, List, All, Some, None, codes, filter, not, true};
ghost use Rattle.std.specs.Str.{is_utf8};
ghost use Rattle.query_http.specs.declared.paths.Endpoint.{Endpoint as EndpointValue};
ghost use Rattle.query_http.specs.Paths.{IsPath, IsNoPath};
ghost use Rattle.step_lines.specs.Targets.{endpoint_of};
ghost use Rattle.step_lines.specs.Steps.{put_by, step_in};
ghost use Rattle.step_lines.specs.Words.{is_space};

/// A path's place is the one endpoint that has it, and a path without a place has none.
pub fn a_place_is_that_of_its_path()
    ensures place { (path part : List ℕ) (e : EndpointValue) →
        (endpoint_of path ≡ Some (e, part)) ↔ IsPath e part path }
    ensures none { (path : List ℕ) → (endpoint_of path ≡ None) ↔ IsNoPath path }
{}

/// The batch of a `put` is all that follows the space after the seat, except for its spaces, if the line is UTF-8.
pub fn a_batch_is_what_follows_its_seat()
    ensures { (seat hex : List ℕ) → All (λ c. c ≢ 32) seat →
        is_utf8 (codes "put " ++ (seat ++ 32 ∷ hex)) ≡ true →
        step_in (codes "put " ++ (seat ++ 32 ∷ hex)) ≡
        put_by seat (filter (λ c. not (is_space c)) hex) }
{}
