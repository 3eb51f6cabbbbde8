//! Certificates: their bodies, as values and as bytes, with who speaks in them and their digest.
#![tactic(auto)]

mod body;
mod cert;
mod distinct;
mod fault;
mod known;
mod laws;
mod limit_laws;
mod limits;
mod lists;
mod reading;
mod writing;

pub use body::CertBody;
pub use cert::{Cert, speaker_of};
pub use fault::{BodyFault, CertFault};
pub use known::KnownBodies;
pub use laws::{
    a_body_has_at_most, bodies_are_read, each_part_is_counted_once, one_body_spelling,
    short_bodies_are_refused, the_live_are_told,
};
pub use limit_laws::limits_are;
pub use limits::{MAX_BODY_LEN, MAX_DISTINCT};
pub use lists::{read_bodies, read_bodies_by, write_bodies};
pub use reading::{read_bare_body, read_body};
pub use writing::write_body;
