//! The certificates of logins, roles and delegations, ready to be presented.
#![tactic(auto)]

mod forms;
mod issuing;
pub mod laws;
mod signer;

pub use forms::{boot, channel, delegate, login, role, session};
pub use issuing::issue_body;
pub use signer::Signer;
