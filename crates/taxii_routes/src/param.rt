ghost use Rattle.std.specs.Prelude.{◌≡◌, ℕ, List, option_map, Some, MatchOption};
ghost use Rattle.flow_values.specs.Answers.{FindsExactly};
ghost use Rattle.taxii_routes.specs.Param.{param_name};

/// A query parameter (TAXII 2.1, sections 3.4 and 3.5).
#[derive(Clone, Copy, Debug, PartialEq, Eq)]
pub enum Param {
    /// `added_after`: only objects added after an instant.
    AddedAfter,
    /// `limit`: the maximum number of objects in a page.
    Limit,
    /// `next`: the cursor of the next page.
    Next,
    /// `match[id]`: the identifiers of the objects.
    MatchId,
    /// `match[type]`: the types of the objects.
    MatchType,
    /// `match[version]`: which versions of each object.
    MatchVersion,
    /// `match[spec_version]`: the STIX versions of the objects.
    MatchSpec,
}

impl Param {
    /// The parameter's name in a query string.
    pub fn name(self) -> &'static str
        ensures { result.now ≡ param_name self }
    {
        match self {
            Param::AddedAfter => "added_after",
            Param::Limit => "limit",
            Param::Next => "next",
            Param::MatchId => "match[id]",
            Param::MatchType => "match[type]",
            Param::MatchVersion => "match[version]",
            Param::MatchSpec => "match[spec_version]",
        }
    }

    /// The parameter with this name, if any.
    pub(crate) fn named(name: &str) -> Option<Param>
        ensures { FindsExactly (λ param. name.now ≡ param_name param) result }
    {
        match name {
            "added_after" => Some(Param::AddedAfter),
            "limit" => Some(Param::Limit),
            "next" => Some(Param::Next),
            "match[id]" => Some(Param::MatchId),
            "match[type]" => Some(Param::MatchType),
            "match[version]" => Some(Param::MatchVersion),
            "match[spec_version]" => Some(Param::MatchSpec),
            _ => None,
        }
    }
}
