// Supplies: who says, tick by tick, whether the application may run.
//
// `interface` is all that the crates above know of a supply: its bound, its floor, its step and their laws.
// `server` is the first supply, the periodic server.
#![tactic(auto)]

pub mod grant;
pub mod interface;
pub mod server;

pub use grant::Grant;
pub use interface::Supply;
pub use server::PeriodicServer;
