ghost use Rattle.std.specs.Prelude.{◌≡◌, true};
ghost use Rattle.taxii_exchange.specs.Checking.{allows};
ghost use Rattle.taxii_service.specs.Resource as spec;
ghost use Rattle.taxii_service.specs.Operation.{IsOperation};
ghost use Rattle.taxii_service.specs.inner.Performing.{operation_of};

use crate::Resource;
use http_messages::Method;
use stix_ids::IdRef;
use taxii_bodies::CollectionInfo;

/// The effect of a request that passed all checks.
#[derive(Clone, Copy)]
pub(crate) enum Operation<'a> {
    /// A GET reads a resource.
    Read(Resource<'a>),
    /// A POST adds objects to a collection.
    Add(&'a CollectionInfo),
    /// A DELETE removes an object from a collection.
    Remove(&'a CollectionInfo, IdRef<'a>),
}

impl<'a> Operation<'a> {
    /// The operation of a method on a resource that allows it.
    pub(crate) fn of(method: Method, resource: Resource<'a>) -> Operation<'a>
        requires { allows (spec.allowed (spec.resource_of resource)) method ≡ true }
        ensures { IsOperation method (spec.resource_of resource.entry) (operation_of result) }
    {
        match (method, resource) {
            (Method::Post, Resource::Objects(info)) => Operation::Add(info),
            (Method::Delete, Resource::Object(info, id)) => Operation::Remove(info, id),
            (_, resource) => Operation::Read(resource),
        }
    }
}
