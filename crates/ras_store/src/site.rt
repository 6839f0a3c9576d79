ghost use Rattle.std.specs.Prelude.{◌≡◌};
ghost use Rattle.ras_store.specs.Sites.{origin_of};

use crate::ticket::Ticket;
use ras_core::Origin;

/// Where a cube comes from, as a worker knows it.
#[derive(Clone, Copy)]
pub enum Site<'t> {
    /// It is the goal of this number.
    Goal { disjunct: u16 },
    /// Its states lead by the transition into the ticket's cube.
    Step { ticket: &'t Ticket, transition: u16 },
}

impl<'t> Site<'t> {
    /// The origin that the store keeps for it.
    pub fn origin(&self) -> Origin
        ensures { result ≡ origin_of self.now }
    {
        match *self {
            Site::Goal { disjunct } => Origin::Goal { disjunct },
            Site::Step { ticket, transition } => Origin::Step {
                entry: ticket.entry,
                transition,
            },
        }
    }
}
