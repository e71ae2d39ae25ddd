ghost use Rattle.std.specs.Prelude.{◌≡◌, ◌↔◌, ◌≤◌, [], All, IsTrue, length, option_map, slice_get};
ghost use Rattle.stix_ids.specs.PartsOf.{id_of};
ghost use Rattle.stix_json.specs.Ordered.{IsOrdered};
ghost use Rattle.stix_bundles.specs.Objects.{data_in};
ghost use Rattle.stix_bundles.specs.Bundle.{AreAllBreaks};
ghost use Rattle.stix_bundles.specs.declared.outline.TheConstants.{MAX_OBJECTS};
ghost use Rattle.stix_bundles.specs.inner.Index.{IsPositionOf, IsIndexed};

use crate::index::Index;
use crate::latest::latest_of;
use flow_values::Items;
use std::marker::Model;
use stix_ids::IdRef;
use stix_json::Json;

/// A bundle whose objects are all valid. Its value in contracts is the list of its objects.
#[derive(Drop)]
pub struct Bundle {
    objects: Items<Json>,
    index: Index,
}

impl Model for Bundle {
    ghost use Rattle.std.specs.Prelude.{List};
    ghost use Rattle.std.specs.Coded.{codes, coded_list};
    ghost use Rattle.stix_json.specs.declared.value.Json.{Json};
    ghost use Rattle.stix_json.specs.contracts.value.Json as json;

    ghost Value = { List Json };

    ghost coded = { coded_list (Prim.hlevel (codes, json.the_row.coded)) };

    ghost view = { λ bundle. bundle.objects };

    ghost use Rattle.stix_bundles.specs.Objects.{data_in};
    ghost use Rattle.stix_bundles.specs.inner.Index.{IsIndexed};

    ghost invariant = { λ bundle. IsIndexed (data_in bundle.objects) bundle.index };
}

impl Bundle {
    /// The bundle of these objects and their index.
    pub(crate) fn new(objects: Items<Json>, index: Index) -> Bundle
        requires { IsIndexed (data_in objects) index }
        ensures { result ≡ objects }
    {
        Bundle { objects, index }
    }

    /// The number of objects.
    pub fn len(&self) -> usize
        ensures { result ≡ length self.now }
    {
        self.objects.len()
    }

    /// Whether the bundle has no objects.
    pub fn is_empty(&self) -> bool
        ensures { IsTrue result ↔ (self.now ≡ []) }
    {
        self.objects.is_empty()
    }

    /// The objects, in the order of the bundle: at most `MAX_OBJECTS`, ordered, and without
    /// violations.
    pub fn objects(&self) -> &[Json]
        ensures value { result.now ≡ self.now }
        ensures counted { length self.now ≤ MAX_OBJECTS }
        ensures ordered { All IsOrdered (data_in self.now) }
        ensures unbroken { AreAllBreaks 0 (data_in self.now) [] }
    {
        self.objects.as_slice()
    }

    /// The position of the latest version of an identifier. Allocates nothing.
    pub(crate) fn latest(&self, id: IdRef<'_>) -> Option<u32>
        ensures { IsPositionOf (data_in self.now) (id_of id.entry) result }
    {
        match &self.index {
            Index::Unindexed => latest_of(self.objects.as_slice(), id),
            Index::Many(positions) => positions.get(id),
        }
    }
}

/// The object at a position, counted from 0. `None` past the last object. Allocates nothing.
pub fn object(bundle: &Bundle, at: u32) -> Option<&Json>
    ensures { option_map (λ value. value.now) result ≡ slice_get bundle.now at }
{
    bundle.objects.as_slice().get(at as usize)
}
