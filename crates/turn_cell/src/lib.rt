//! A lock round a value that keeps a journal; each turn has a ticket.
//! A pass knows what it has seen of the journal and which places in it are its own.
//! It holds shares, of which a cell has 65,536.
#![tactic(auto)]

mod cell;
mod closing;
mod journaled;
mod limit_laws;
mod pass;
mod rule;
mod shares;
mod steps;
mod view;
mod waiting;

pub use cell::TurnCell;
pub use journaled::Journaled;
pub use limit_laws::limits_are;
pub use pass::{Held, Pass};
pub use shares::ALL_SHARES;
