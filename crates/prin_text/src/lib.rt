//! Principals and access lists as texts, with names and roles by the texts of a table.
#![tactic(auto)]

mod fault;
mod label;
mod laws;
mod limit_laws;
mod limits;
mod lines;
mod list;
mod names;
mod piece;
mod printing;
mod reading;
mod rights;
mod table;
mod tokens;
mod words;

pub use fault::{NamesFault, TextCause, TextFault};
pub use label::Label;
pub use laws::{
    faults_are_exact, lists_are_read, principals_are_read, printed_lists_are_read,
    printed_principals_are_read,
};
pub use limit_laws::limits_are;
pub use limits::{MAX_ENTRIES, MAX_NAMES, MAX_ROLES, MAX_TEXT};
pub use lines::adding::add_key;
pub use lines::fault::{FileCause, FileFault};
pub use lines::field::{
    digits, granted, keyed, numbered, numbered_digits, one_number, two_numbers_and_key,
};
pub use lines::key_draft::KeyDraft;
pub use lines::limits::MAX_FILE;
pub use lines::line::line_at;
pub use lines::line_fault::LineFault;
pub use lines::number::number_up_to;
pub use lines::taking::{take_key, take_name, take_role};
pub use lines::word::{is_first_line, is_plain, is_skipped, is_word, word_off};
pub use list::{print_list, read_list};
pub use names::Names;
pub use printing::print_principal;
pub use reading::read_principal;
pub use rights::rights_of;
