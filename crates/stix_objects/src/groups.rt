ghost use Rattle.std.specs.Prelude.{◌≡◌};
ghost use Rattle.std.specs.List.{list_any};
ghost use Rattle.stix_objects.specs.Breaks.{same_group};
ghost use Rattle.stix_objects.specs.inner.Views.{groups_view};

/// The group of an object type: it selects the common rows that apply.
#[derive(Clone, Copy, Debug, PartialEq, Eq)]
pub enum Group {
    /// A domain or relationship object type with its own rows.
    Domain,
    /// The marking-definition.
    Marking,
    /// An observable type with its own rows.
    Observable,
    /// Every other type.
    Other,
}

/// A set of groups: those to which a common row applies.
#[derive(Clone, Copy)]
pub(crate) struct Groups {
    pub(crate) domain: bool,
    pub(crate) marking: bool,
    pub(crate) observable: bool,
    pub(crate) other: bool,
}

impl Groups {
    /// Whether the group is one of these.
    pub(crate) fn contains(self, group: Group) -> bool
        ensures { result ≡ list_any (same_group group) (groups_view self) }
    {
        match group {
            Group::Domain => self.domain,
            Group::Marking => self.marking,
            Group::Observable => self.observable,
            Group::Other => self.other,
        }
    }
}
