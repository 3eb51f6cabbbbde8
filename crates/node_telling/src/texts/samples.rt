//! The lines of a page. What an `Err` leaves of the text is not said here.

ghost use Rattle.std.specs.Prelude.{◌≡◌, ◌++◌, OnOk, length, map, string_bytes};
ghost use Rattle.node_telling.specs.Samples.{each_line, heading, label, plain, rows, sample, single, valued};
ghost use Rattle.node_telling.specs.Page.{gauge_line};

use crate::texts::journal::Gauge;
use itoa::Buffer;
use std::alloc::AllocError;

/// A family of samples: its name, what it counts, and of which kind it is.
#[derive(Clone, Copy)]
pub(crate) struct Family {
    pub name: &'static str,
    pub help: &'static str,
    pub kind: &'static str,
}

pub(crate) fn push_heading(out: &mut String, family: Family) -> Result<(), AllocError>
    ensures { OnOk result (string_bytes out.new
        ≡ string_bytes out.old ++ heading family.name.now family.help.now family.kind.now) }
{
    out.push_str("# HELP ")?;
    out.push_str(family.name)?;
    out.push_str(" ")?;
    out.push_str(family.help)?;
    out.push_str("\n# TYPE ")?;
    out.push_str(family.name)?;
    out.push_str(" ")?;
    out.push_str(family.kind)?;
    out.push_str("\n")
}

// A sample's value, and the end of its line.
fn push_value(out: &mut String, value: u128) -> Result<(), AllocError>
    ensures { OnOk result (string_bytes out.new
        ≡ string_bytes out.old ++ valued value) }
{
    let mut buffer = Buffer::new();
    out.push_str(" ")?;
    out.push_str(buffer.format(value))?;
    out.push_str("\n")
}

fn push_label(out: &mut String, key: &str, word: &str) -> Result<(), AllocError>
    ensures { OnOk result (string_bytes out.new
        ≡ string_bytes out.old ++ label key.now word.now) }
{
    out.push_str("{")?;
    out.push_str(key)?;
    out.push_str("=\"")?;
    out.push_str(word)?;
    out.push_str("\"}")
}

/// A sample with a label.
pub(crate) fn push_row(
    out: &mut String,
    name: &str,
    key: &str,
    word: &str,
    value: u128,
) -> Result<(), AllocError>
    ensures { OnOk result (string_bytes out.new
        ≡ string_bytes out.old ++ sample name.now (label key.now word.now) value) }
{
    out.push_str(name)?;
    push_label(out, key, word)?;
    push_value(out, value)
}

/// A sample without a label.
pub(crate) fn push_plain(out: &mut String, name: &str, value: u128) -> Result<(), AllocError>
    ensures { OnOk result (string_bytes out.new
        ≡ string_bytes out.old ++ plain name.now value) }
{
    out.push_str(name)?;
    push_value(out, value)
}

/// A family of one sample.
pub(crate) fn push_single(out: &mut String, family: Family, value: u64) -> Result<(), AllocError>
    ensures { OnOk result (string_bytes out.new ≡ string_bytes out.old
        ++ single family.name.now family.help.now family.kind.now value) }
{
    push_heading(out, family)?;
    push_plain(out, family.name, u128::from(value))
}

/// A sample for each word, with the count at its place.
pub(crate) fn push_rows(
    out: &mut String,
    name: &str,
    key: &str,
    words: &[&str],
    counts: &[u64],
) -> Result<(), AllocError>
    requires { length counts.now ≡ length words.now }
    ensures { OnOk result (string_bytes out.new ≡ string_bytes out.old
        ++ rows name.now key.now (map (λ s. s.now) words.now) counts.now) }
{
    for (place, word) in words.iter().enumerate() {
        push_row(out, name, key, word, u128::from(counts[place]))?;
    }
    Ok(())
}

/// A sample for each journal, by its number.
pub(crate) fn push_gauges(
    out: &mut String,
    name: &str,
    key: &str,
    gauges: &[Gauge],
) -> Result<(), AllocError>
    ensures { OnOk result (string_bytes out.new ≡ string_bytes out.old
        ++ each_line (gauge_line name.now key.now) gauges.now) }
{
    for (place, gauge) in gauges.iter().enumerate() {
        let mut buffer = Buffer::new();
        let number = buffer.format(gauge.number);
        push_row(out, name, key, number, u128::from(gauge.entries))?;
    }
    Ok(())
}
