//! Facts about what an index lists. Each function does nothing, and its contract is the fact.

ghost use Rattle.std.specs.List.{list_any};
ghost use Rattle.std.specs.List.Sorted.{IsStrictlySortedBy};
ghost use Rattle.std.specs.Prelude.{◌≡◌, true, ℕ, List, [], ◌∷◌, ◌++◌};
ghost use Rattle.jaeger_model.specs.declared.placed.Placed.{Placed as PlacedValue};
ghost use Rattle.jaeger_model.specs.Texts.{insert_once};
ghost use Rattle.trace_model.specs.Names.{services, operation_names, operations};
ghost use Rattle.service_index.specs.Labels.{Names, Extends};
ghost use Rattle.service_index.specs.Indexes.{Index, listing_by, IsIndexed};
ghost use Rattle.service_index.specs.ListedNames.{Listed, same_listed, listed, listed_cmp, listed_in, services_in, names_in, operations_in};

/// The index of all arrivals answers as the plain store does.
pub fn listed_answers()
    ensures services { (ps : List PlacedValue) → services_in (listed_in ps) ≡ services ps }
    ensures names { (service : List ℕ) (ps : List PlacedValue) →
        names_in service (listed_in ps) ≡ operation_names service ps }
    ensures operations { (service kind : List ℕ) (ps : List PlacedValue) →
        operations_in service kind (listed_in ps) ≡ operations service kind ps }
{}

/// One more arrival lists what it reports, unless that is listed already.
pub fn listed_once_more()
    ensures none { listed_in [] ≡ [] }
    ensures more { (ps : List PlacedValue) (p : PlacedValue) →
        listed_in (ps ++ p ∷ []) ≡ insert_once listed_cmp (listed_in ps) (listed p) }
{}

/// A name that is listed already is not listed again.
#[tactic(auto, using(crate::proofs::KnownNames::known_again))]
pub fn listed_already()
    ensures { (ls : List Listed) (l : Listed) → IsStrictlySortedBy listed_cmp ls →
        list_any (same_listed l) ls ≡ true → insert_once listed_cmp ls l ≡ ls }
{}

/// More numbers with names don't change an index or what it lists.
pub fn more_names()
    ensures indexed { (names more : Names) (index : Index) → Extends names more →
        IsIndexed names index → IsIndexed more index }
    ensures listed { (names more : Names) (index : Index) → Extends names more →
        IsIndexed names index → listing_by more index ≡ listing_by names index }
{}
