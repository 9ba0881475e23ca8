//! Many users served over TCP, one thread for each connection and one for each worker.
mod clock;
mod connection_limit;
mod first_line;
mod history;
mod lock_workers;
mod queue_workers;
mod server;
mod server_backend;
mod shared_directory;
mod socket_connection;
mod visitor;
mod worker_pool;

pub use connection_limit::MAX_OPEN_CONNECTIONS;
pub use server::serve_on;
pub use worker_pool::Kept;
