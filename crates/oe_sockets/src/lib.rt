//! What the server and the client stand on outside: the time of day, and connections over TCP, whose peers have to take
//! and to give in time.
//!
//! All of it runs over any network and any clock, so that they can be made to fail. The bytes that pass are hidden, so
//! contracts say when a call may fail; what a call asks of the network is shown by worked values. A door may write a line
//! for each connection, of which no contract speaks.
#![tactic(auto)]

mod clock;
mod deadline;
mod door;
mod lingering;
mod link;
mod log;
mod network;
mod patience;

pub use clock::SystemClock;
pub use door::TcpDoor;
pub use link::TcpLink;
pub use log::{LogDoor, LogLink};
pub use network::Network;
pub use patience::Patience;
