ghost use Rattle.std.specs.Prelude.{◌≡◌, ◌⊎◌, IfOk, IfErr, OnErr, Err};
ghost use Rattle.flow_edges.specs.Faults.{Counted};
ghost use Rattle.taxii_bodies.specs.declared.problem.Problem.TheVariants as Trouble;
ghost use Rattle.taxii_exchange.specs.declared.refusal.Refusal.TheVariants as Refused;
ghost use Rattle.taxii_store.specs.Agreement.{Agrees, without_rows};
ghost use Rattle.taxii_service.specs.Operation.{Read, Does, CannotDo};
ghost use Rattle.taxii_service.specs.Resource.{Resource};
ghost use Rattle.taxii_service.specs.inner.Performing.{operation_of, HasStatus, MethodChanges};

use crate::operation::Operation;
use crate::reading::read;
use crate::{State, add_objects, delete_object};
use taxii_exchange::{Answer, Config, Refusal};
use taxii_routes::Query;
use taxii_rows::Keeper;

/// Performs the operation of a request that passed all checks.
pub(crate) fn perform<K: Keeper>(
    config: &Config,
    state: &mut State,
    keeper: &mut K,
    moment: u64,
    body: &[u8],
    query: Query,
    operation: Operation<'_>,
) -> Result<Answer, Refusal>
    requires agrees { Agrees (K.kept keeper.old) state.old.library }
    requires status { (resource : Resource) → operation_of operation ≡ Read resource
        → HasStatus state.old resource }
    ensures agrees { Agrees (K.kept keeper.new) state.new.library }
    ensures keeper { without_rows (K.kept keeper.new) ≡ without_rows (K.kept keeper.old) }
    ensures ok { IfOk result
        (λ answer. Does config.now state.old moment body.now query (operation_of operation.entry)
        answer state.new) }
    ensures err { IfErr result (λ refusal. (refusal ≡ Refused.NoMemory)
        ⊎ (CannotDo state.old moment body.now (operation_of operation.entry) refusal
        ⊎ ((refusal ≡ Refused.Problem Trouble.StoreFault)
        × MethodChanges config.now state.old moment body.now query
        (operation_of operation.entry)))) }
    ensures unchanged { OnErr result (state.new ≡ state.old) }
    ensures causes { Counted (result ≡ Err (Refused.Problem Trouble.StoreFault))
        (K.faults keeper.old) (K.faults keeper.new) }
{
    match operation {
        Operation::Read(resource) => Ok(read(config, state, resource, query)?),
        Operation::Add(info) => { add_objects(config.alloc, info.id, state, keeper, moment, body) }
        Operation::Remove(info, id) => {
            let id = id.to_id(config.alloc)?;
            delete_object(config.alloc, info.id, &id, query, state, keeper)
        }
    }
}
