//! Theorems about the definitions. Each `ensures` states one; the functions have no effect.

ghost use Rattle.std.specs.Prelude.{◌≡◌, ℕ, List, Option};
ghost use Rattle.taxii_routes.specs.declared.route.Route.{Route};
ghost use Rattle.taxii_routes.specs.declared.query.Query.{Query};
ghost use Rattle.taxii_routes.specs.declared.refusal.QueryRefusal.{QueryRefusal};
ghost use Rattle.taxii_routes.specs.Target.{IsTargetOf};
ghost use Rattle.taxii_routes.specs.Route.{IsRoutePath};
ghost use Rattle.taxii_routes.specs.Query.{Pair, IsQueryOf, IsRefusedQuery};

/// A target has one path and at most one query.
pub fn one_target()
    ensures path { (target first second : List ℕ) (query other : Option (List ℕ))
        → IsTargetOf target first query → IsTargetOf target second other → first ≡ second }
    ensures query { (target first second : List ℕ) (query other : Option (List ℕ))
        → IsTargetOf target first query → IsTargetOf target second other → query ≡ other }
{}

/// A path has at most one route.
pub fn one_route()
    ensures { (path : List ℕ) (first second : Route) → IsRoutePath path first
        → IsRoutePath path second
        → first ≡ second }
{}

/// The meaning of a list of pairs is unique.
pub fn one_query()
    ensures { (pairs : List Pair) (first second : Query) → IsQueryOf pairs first
        → IsQueryOf pairs second → first ≡ second }
{}

/// The refusal of a list of pairs is unique.
pub fn one_refusal()
    ensures { (pairs : List Pair) (first second : QueryRefusal) → IsRefusedQuery pairs first
        → IsRefusedQuery pairs second → first ≡ second }
{}

/// No list of pairs has both a meaning and a refusal.
pub fn never_both()
    ensures { (pairs : List Pair) (query : Query) (refusal : QueryRefusal) → IsQueryOf pairs query
        → ¬ IsRefusedQuery pairs refusal }
{}
