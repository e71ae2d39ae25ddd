use taxii_exchange::Statuses;
use taxii_store::Library;

/// The state of a server: its store, and the statuses that clients may request.
#[derive(Drop)]
pub struct State {
    pub library: Library,
    pub statuses: Statuses,
}
