//! How many descriptors the system lets a program have.

ghost use Rattle.std.specs.Prelude.{◌≡◌, ◌-◌, min, max};
ghost use Rattle.system_hub.specs.declared.limits.TheConstants.{OWN};

use crate::limits::OWN;

// The line of the limits of a process that tells it.
const LINE: &str = "Max open files";

/// How many descriptors a process may have at a time, by the text of its limits. `None` where no line
/// tells, or it is without a limit.
pub fn descriptors_of(limits: &str) -> Option<u64> {
    for line in limits.lines() {
        if let Some(numbers) = line.strip_prefix(LINE) {
            let first = numbers.split_ascii_whitespace().next()?;
            return first.parse::<u64>().ok();
        }
    }
    None
}

/// As many clients as were wanted, or as there are descriptors for beside the program's own; one at
/// least.
pub fn clients_within(wanted: u32, descriptors: u64) -> u32
    ensures { result ≡ min wanted (max 1 (descriptors - OWN)) }
{
    let rest = descriptors.saturating_sub(OWN).max(1);
    match u32::try_from(rest) {
        Ok(rest) => wanted.min(rest),
        Err(_) => wanted,
    }
}
