//! Consequences of the definitions: each contract is a theorem, and its function does nothing.

ghost use Rattle.std.specs.Prelude.{◌≡◌, List};
ghost use Rattle.serde_json.specs.Data.{Data};
ghost use Rattle.stix_versions.specs.declared.version_break.VersionBreak.{VersionBreak};
ghost use Rattle.stix_versions.specs.declared.marking_break.MarkingBreak.{MarkingBreak};
ghost use Rattle.stix_versions.specs.Versions.{AreVersionBreaks};
ghost use Rattle.stix_versions.specs.Markings.{AreMarkingBreaks};

/// Objects have one list of violations of the rules of versions, and one of those of granular
/// markings.
pub fn one_list()
    ensures versions { (objects : List Data) (first second : List VersionBreak)
        → AreVersionBreaks objects first
        → AreVersionBreaks objects second → first ≡ second }
    ensures markings { (objects : List Data) (first second : List MarkingBreak)
        → AreMarkingBreaks objects first
        → AreMarkingBreaks objects second → first ≡ second }
{}
