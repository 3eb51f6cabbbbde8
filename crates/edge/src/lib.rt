//! What a program stands on beside the node: its own words, what is told, where it listens, wallets.
#![tactic(auto)]

mod checking;
mod decisions;
mod doors;
mod files;
mod ground;
mod keys;
mod own;
mod print;
mod setting;
mod starting;
mod streams;
mod telling;
mod usage;
mod wallets;

pub use checking::line_of_file;
pub use files::file_of;
pub use ground::{Ground, Standing, begin};
pub use keys::fresh_key;
pub use own::{Own, own_of};
pub use print::text_of;
pub use setting::{Setting, partners_of, serves_doors};
pub use streams::{Asked, Named, Waiting, asked_of, waiting_of, watched_of};
pub use telling::{output_rounds, output_teller};
pub use usage::{USAGE, VERSION};
pub use wallets::{WalletEnd, serve_wallet_at};
