//! The store of a search: its entries with their witnesses, its hit and its spill, and the journal of which they are the
//! replay. Each call is one event of the core or none. The layer above uses the answers of the calls, and that the journal
//! of a store is lawful, with all that the core law says of it (`Store::known`).
#![tactic(auto)]

mod comparing;
mod found;
mod named;
mod naming;
mod outcome;
mod parts;
mod site;
mod store;
mod ticket;

pub use found::Found;
pub use named::Named;
pub use outcome::{Admitted, Dropped, Finished, Quiet, Skipped};
pub use ras_core::Link;
pub use site::Site;
pub use store::Store;
pub use ticket::Ticket;
