use taxii_exchange::Config;
use taxii_service::State;

/// A server: its configuration and its state.
#[derive(Drop)]
pub struct Server {
    pub config: Config,
    pub state: State,
}
