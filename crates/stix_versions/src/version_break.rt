ghost use Rattle.std.specs.Prelude.{◌≡◌};
ghost use Rattle.stix_versions.specs.Names.{version_rule_name};

/// The rules of versions (STIX 2.1, section 3.6), by how they are broken.
#[derive(Clone, Copy, Debug, PartialEq, Eq)]
pub enum VersionRule {
    /// An earlier version in the bundle has another `created`.
    CreatedChanged,
    /// A version with an earlier `modified` is revoked.
    AfterRevoked,
    /// An earlier version in the bundle has the same `modified` and differs.
    SameVersionTwice,
}

impl VersionRule {
    /// The rule's name, as it is printed.
    pub fn name(self) -> &'static str
        ensures { result.now ≡ version_rule_name self }
    {
        match self {
            VersionRule::CreatedChanged => "CreatedChanged",
            VersionRule::AfterRevoked => "AfterRevoked",
            VersionRule::SameVersionTwice => "SameVersionTwice",
        }
    }
}

/// A violation of a rule of versions, with the object's position, counted from 0.
#[derive(Clone, Copy, Debug, PartialEq, Eq)]
pub struct VersionBreak {
    pub object: u32,
    pub rule: VersionRule,
}
