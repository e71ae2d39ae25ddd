ghost use Rattle.std.specs.Prelude.{option_map};
ghost use Rattle.taxii_routes.specs.Target.{IsTargetOf};

/// Splits a request target at its first `?` into path and query. Allocates nothing.
pub fn split_target(target: &str) -> (&str, Option<&str>)
    ensures { IsTargetOf target.now result.0.now (option_map (λ query. query.now) result.1) }
{
    match target.split_once('?') {
        Some((path, query)) => (path, Some(query)),
        None => (target, None),
    }
}
