//! Relay domains: a certificate travels from domain to domain, each of which checks it and seals it
//! again, and names those that it visited.
#![tactic(auto)]

mod answer;
mod code;
mod domain;
mod domain_draft;
mod fault;
mod hopping;
mod laws;
mod limit_laws;
mod limits;
mod opening;
mod path_kind;
mod path_reading;
mod path_taking;
mod route;

pub use answer::{Along, HopAnswer, Target};
pub use code::{LOOP, TOO_FAR, UNKNOWN_DOMAIN, UNKNOWN_PEER, UNKNOWN_SENDER};
pub use domain::Domain;
pub use fault::{PathCause, PathFault};
pub use hopping::hop;
pub use laws::{one_hop_holds, paths_are_done, the_last_form_opens};
pub use limit_laws::limits_are;
pub use limits::{CARRIED, MAX_DOMAINS, MAX_ISSUERS, MAX_LINKS, MAX_NODES, MAX_ROUTE, MAX_VISITED};
pub use path_reading::read_path_file;
pub use route::along;
