//! Pulled credentials: a node fetches the certificates of a request from its caller, and appends
//! those that open to those that the request presents; and the caller's wallet, which gives them.
#![tactic(auto)]

mod answer;
mod exchange;
mod fetch;
mod fetch_link;
mod laws;
mod limit_laws;
mod limits;
mod mem_fetch;
mod no_fetch;
mod opening;
mod pull_reply;
mod pulling;
mod wallet;
mod wallet_answer;
mod wallet_fault;
mod wallet_reading;
mod wallet_serving;

pub use exchange::{FetchRoom, ask};
pub use fetch::{Fetch, Fetched};
pub use fetch_link::LinkFetch;
pub use laws::{the_calls_leave_no_choice, what_is_appended_opens, what_is_given_is_one_list};
pub use limit_laws::limits_are;
pub use limits::{
    FETCH, GIVES, LONGEST_ANSWER, MAX_ANSWER, MAX_WALLET_CERT, MAX_WALLET_LINES, PULL_FAILED,
};
pub use mem_fetch::MemFetch;
pub use no_fetch::NoFetch;
pub use pull_reply::{ReplyBytes, write_pull_failed, write_pull_failed_with};
pub use pulling::{Pulled, pull, pull_with};
pub use wallet::{Wallet, WalletLine};
pub use wallet_fault::{WalletCause, WalletFault};
pub use wallet_reading::read_wallet;
pub use wallet_serving::serve_wallet;
