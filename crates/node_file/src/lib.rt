//! What a node and a relay are opened with, and how it is read from a file.
#![tactic(auto)]

mod laws;
mod limit_laws;
mod limits;
mod node_text;
mod object_drafts;
mod object_plan;
mod object_plans;
mod opening;
mod relay_file;
mod relay_kind;
mod relay_reading;

pub use laws::{one_opening, openings_are_read, printed_openings_are_read};
pub use limit_laws::limits_are;
pub use limits::{
    MAX_ANCHORS, MAX_CHANNELS, MAX_COMMONS, MAX_FILE, MAX_ISSUERS, MAX_KEEP, MAX_LIMIT, MAX_NODES,
    MAX_OBJECTS, MAX_ROOM, MAX_SHARDS,
};
pub use node_text::print_opening;
pub use object_plan::ObjectPlan;
pub use object_plans::ObjectPlans;
pub use opening::{Opening, read_opening};
pub use prin_text::{FileCause, FileFault};
pub use relay_file::RelayFile;
pub use relay_reading::read_relay_file;
