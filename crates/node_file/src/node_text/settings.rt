//! What a line may say once of the whole node.

ghost use Rattle.std.specs.Prelude.{◌≡◌, ◌≤◌, IfOk};
ghost use Rattle.node_file.specs.NodeLines.{journal_with, keep_with, new_within, node_with};
ghost use Rattle.node_file.specs.NodeLines.{settings_with, shards_with};

use crate::limits::{MAX_KEEP, MAX_LIMIT, MAX_SHARDS};
use crate::node_text::kind::Setting;
use prin_text::{FileCause, keyed, one_number};

// What the lines said: the node's number with the key of its relay, how many shards there are, the
// seconds that a dead certificate stays, and the entries that a journal has room for.
#[derive(Clone, Copy)]
pub(super) struct Settings {
    pub node: Option<(u32, [u8; 32])>,
    pub shards: Option<u32>,
    pub keep: Option<u64>,
    pub limit: Option<u64>,
}

// A number from one to the most, where no line above says one.
#[tactic(auto, unfolding(crate::specs::NodeLines::new_within))]
fn new_within(most: u64, said: bool, number: u64) -> Result<u64, FileCause>
    ensures value { result ≡ new_within most said number }
    ensures most { IfOk result (λ n. n ≤ most) }
{
    if said {
        return Err(FileCause::Twice);
    }
    if 1 <= number && number <= most {
        Ok(number)
    } else {
        Err(FileCause::Limit)
    }
}

#[tactic(auto, unfolding(crate::specs::NodeLines::node_with))]
fn node_with(above: Settings, rest: &[u8]) -> Result<Settings, FileCause>
    ensures { result ≡ node_with above rest.now }
{
    let said = keyed(rest)?;
    if above.node.is_some() {
        return Err(FileCause::Twice);
    }
    let mut more = above;
    more.node = Some(said);
    Ok(more)
}

#[tactic(auto, unfolding(crate::specs::NodeLines::shards_with))]
fn shards_with(above: Settings, rest: &[u8]) -> Result<Settings, FileCause>
    ensures { result ≡ shards_with above rest.now }
{
    let number = one_number(rest, u32::MAX as u64)?;
    let shards = new_within(MAX_SHARDS as u64, above.shards.is_some(), number)?;
    let mut more = above;
    more.shards = Some(shards as u32);
    Ok(more)
}

#[tactic(auto, unfolding(crate::specs::NodeLines::keep_with))]
fn keep_with(above: Settings, rest: &[u8]) -> Result<Settings, FileCause>
    ensures { result ≡ keep_with above rest.now }
{
    let number = one_number(rest, u64::MAX)?;
    let keep = new_within(MAX_KEEP, above.keep.is_some(), number)?;
    let mut more = above;
    more.keep = Some(keep);
    Ok(more)
}

#[tactic(auto, unfolding(crate::specs::NodeLines::journal_with))]
fn journal_with(above: Settings, rest: &[u8]) -> Result<Settings, FileCause>
    ensures { result ≡ journal_with above rest.now }
{
    let number = one_number(rest, u64::MAX)?;
    let limit = new_within(MAX_LIMIT, above.limit.is_some(), number)?;
    let mut more = above;
    more.limit = Some(limit);
    Ok(more)
}

// The settings with what a line says of them.
pub(super) fn settings_with(
    above: Settings,
    setting: Setting,
    rest: &[u8],
) -> Result<Settings, FileCause>
    ensures { result ≡ settings_with above setting rest.now }
{
    match setting {
        Setting::Node => node_with(above, rest),
        Setting::Shards => shards_with(above, rest),
        Setting::Keep => keep_with(above, rest),
        Setting::Journal => journal_with(above, rest),
    }
}
