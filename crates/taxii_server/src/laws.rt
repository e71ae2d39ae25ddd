//! Theorems about the definitions. Each `ensures` states one; the functions have no effect.

ghost use Rattle.std.specs.Prelude.{List};
ghost use Rattle.taxii_exchange.specs.declared.config.Config.{Config};
ghost use Rattle.taxii_service.specs.declared.state.State.{State};
ghost use Rattle.taxii_service.specs.Exchanges.{HasServed};
ghost use Rattle.taxii_server.specs.Environment.{LinkView};
ghost use Rattle.taxii_server.specs.Serving.{Client, exchanges_of, HaveConnections};

use flow_links::Door;

/// The requests of all clients, one client after the other, are a history of the server.
pub fn clients_make_history<D: Door>()
    ensures { (view : D.Link
        → LinkView) (config : Config) (before after : State) (clients : List (Client D.Link))
        → HaveConnections view config before clients after
        → HasServed config before (exchanges_of clients) after }
{}
