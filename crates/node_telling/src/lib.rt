//! What a node tells of itself: notices of what went otherwise than well, the log of its decisions,
//! and what it has counted, which is answered by HTTP. No lane waits for who hears it.
#![tactic(auto)]

mod answer;
mod cut_short;
mod decisions;
mod fronts;
mod journals;
mod letter;
mod limit_laws;
mod log_file;
mod notices;
mod pages;
mod rounds;
mod scribe;
mod seconds;
mod status_door;
mod stop;
mod tally;
mod telling;
mod term;
mod texts;
mod warnings;

pub use answer::code_of;
pub use cut_short::{is_cut_short, read_on, write_on};
pub use decisions::{Decisions, Log, Lost, Stopping};
pub use journals::{FILLING, Journals, OBJECTS, WATCHED};
pub use limit_laws::limits_are;
pub use log_file::LogFile;
pub use notices::{Counting, NoticeQueue, Notices, Teller, Tells, WAITING, notices_of, teller_of};
pub use pages::Pages;
pub use rounds::{Rounded, Rounds};
pub use scribe::{Form, LAST, LINES, Scribe};
pub use seconds::seconds_of;
pub use status_door::{ASKING, Counted, SEATS, StatusDoor};
pub use stop::{Listener, Shutter, Stop, stop_at_end};
pub use system_hub::Breakage;
pub use tally::{Tally, status_of};
pub use telling::Telling;
pub use term::Term;
pub use texts::decision::{Decision, decision_line};
pub use texts::journal::{Gauge, Journal};
pub use texts::notice::{Happening, LeftOut, Notice};
pub use texts::notices::{left_out_line, notice_line};
pub use texts::page::push_page;
pub use texts::reply::{FRONT, ReplyFront, is_entry, names_request, reply_at, shows_seal};
pub use texts::start::{Addresses, Bounds, Ended, Served, Started, ended_line, started_line};
pub use texts::status::{ANSWERS, BUCKETS, CAUSES, STATUSES, Status, answer_place, cause_place};
pub use texts::timing::{BOUNDS, place_of};
pub use warnings::{Watched, tell_folders, tell_others};
