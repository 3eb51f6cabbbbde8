//! The parts of a page. What an `Err` leaves of the text is not said here.

ghost use Rattle.std.specs.Prelude.{◌≡◌, ◌++◌, ◌*◌, ◌≤◌, IfOk, OnOk, length, string_bytes, sum, take};
ghost use Rattle.node_telling.specs.Samples.{each_line};
ghost use Rattle.node_telling.specs.Page.{
  bucket,
  faults_text,
  journals_text,
  lacks_text,
  outcomes_text,
  outside_text,
  service_text,
  times_text,
};

use crate::texts::samples::{
    Family, push_gauges, push_heading, push_plain, push_row, push_rows, push_single,
};
use crate::texts::status::{ANSWERS, BUCKETS, CAUSES, STATUSES, Status};
use crate::texts::timing::BOUNDS;
use itoa::Buffer;
use std::alloc::AllocError;

const STATUS_WORDS: [&str; STATUSES] = [
    "0", "1", "2", "3", "4", "5", "6", "7", "8", "9", "10", "11", "12", "13", "14", "15",
];

const ANSWER_WORDS: [&str; ANSWERS] = ["0", "1", "2", "3", "4", "5", "11"];

const CAUSE_WORDS: [&str; CAUSES] = [
    "silent",
    "slow",
    "cut",
    "long",
    "untaken",
    "lost",
    "given-up",
    "turned-away",
];

const BUCKET: &str = "taosd_reply_microseconds_bucket";

/// That it runs, since when, and for whom.
pub(crate) fn push_service(
    out: &mut String,
    version: &str,
    status: &Status,
) -> Result<(), AllocError>
    ensures { OnOk result (string_bytes out.new
        ≡ string_bytes out.old ++ service_text version.now status.now) }
{
    let build = Family {
        name: "taosd_build_info",
        help: "The program's version.",
        kind: "gauge",
    };
    let uptime = Family {
        name: "taosd_uptime_seconds",
        help: "Seconds since it began to serve.",
        kind: "gauge",
    };
    let taken = Family {
        name: "taosd_connections_total",
        help: "Connections that were taken.",
        kind: "counter",
    };
    let open = Family {
        name: "taosd_connections_open",
        help: "Connections that are open.",
        kind: "gauge",
    };
    push_heading(out, build)?;
    push_row(out, build.name, "version", version, 1)?;
    push_single(out, uptime, status.uptime)?;
    push_single(out, taken, status.connections)?;
    push_single(out, open, status.open)
}

/// What became of connections and of frames.
pub(crate) fn push_outcomes(out: &mut String, status: &Status) -> Result<(), AllocError>
    ensures { OnOk result (string_bytes out.new
        ≡ string_bytes out.old ++ outcomes_text status.now) }
{
    let broken = Family {
        name: "taosd_broken_total",
        help: "Connections that ended otherwise than well, by the cause.",
        kind: "counter",
    };
    let replies = Family {
        name: "taosd_replies_total",
        help: "Replies of the node, by their status.",
        kind: "counter",
    };
    let answers = Family {
        name: "taosd_answers_total",
        help: "Answers of the relay, by their code.",
        kind: "counter",
    };
    push_heading(out, broken)?;
    push_rows(out, broken.name, "cause", &CAUSE_WORDS, &status.broken)?;
    push_heading(out, replies)?;
    push_rows(out, replies.name, "status", &STATUS_WORDS, &status.replies)?;
    push_heading(out, answers)?;
    push_rows(out, answers.name, "code", &ANSWER_WORDS, &status.answers)
}

// How many replies took the time of each bound at most. And how many those of all bounds are.
fn push_buckets(out: &mut String, bounds: &[u64], counts: &[u64]) -> Result<u128, AllocError>
    requires few { length bounds.now ≤ 16 }
    requires counted { length bounds.now ≤ length counts.now }
    ensures printed { OnOk result (string_bytes out.new
        ≡ string_bytes out.old ++ each_line (bucket counts.now) bounds.now) }
    ensures total { IfOk result (λ total. total ≡ sum (take (length bounds.now) counts.now)) }
    ensures small { IfOk result (λ total. total ≤ 16 * 18_446_744_073_709_551_615) }
{
    let mut total: u128 = 0;
    for (place, bound) in bounds.iter().enumerate() {
        total += u128::from(counts[place]);
        let mut buffer = Buffer::new();
        push_row(out, BUCKET, "le", buffer.format(*bound), total)?;
    }
    Ok(total)
}

/// How long replies took.
#[tactic(auto, using(crate::proofs::Sums::sum_last))]
pub(crate) fn push_times(out: &mut String, status: &Status) -> Result<(), AllocError>
    ensures { OnOk result (string_bytes out.new ≡ string_bytes out.old ++ times_text status.now) }
{
    let times = Family {
        name: "taosd_reply_microseconds",
        help: "Microseconds from a frame's last byte to its reply's.",
        kind: "histogram",
    };
    push_heading(out, times)?;
    let bounded = push_buckets(out, &BOUNDS, &status.times)?;
    let total = bounded + u128::from(status.times[BUCKETS - 1]);
    push_row(out, BUCKET, "le", "+Inf", total)?;
    push_plain(
        out,
        "taosd_reply_microseconds_sum",
        u128::from(status.micros),
    )?;
    push_plain(out, "taosd_reply_microseconds_count", total)
}

// Of the relay and the clock.
fn push_outside(out: &mut String, status: &Status) -> Result<(), AllocError>
    ensures { OnOk result (string_bytes out.new
        ≡ string_bytes out.old ++ outside_text status.now) }
{
    let calls = Family {
        name: "taosd_relay_calls_total",
        help: "Calls of the link to the relay.",
        kind: "counter",
    };
    let failed = Family {
        name: "taosd_relay_faults_total",
        help: "Calls of the link that failed.",
        kind: "counter",
    };
    let clock = Family {
        name: "taosd_clock_faults_total",
        help: "Readings of the clock that failed or were not believed.",
        kind: "counter",
    };
    push_single(out, calls, status.relay_calls)?;
    push_single(out, failed, status.relay_faults)?;
    push_single(out, clock, status.clock_faults)
}

// Of what lacked.
fn push_lacks(out: &mut String, status: &Status) -> Result<(), AllocError>
    ensures { OnOk result (string_bytes out.new
        ≡ string_bytes out.old ++ lacks_text status.now) }
{
    let scarce = Family {
        name: "taosd_scarce_total",
        help: "Waits of a door since descriptors or memory lacked.",
        kind: "counter",
    };
    let full = Family {
        name: "taosd_full_total",
        help: "Times that each client's seat was taken.",
        kind: "counter",
    };
    let left_out = Family {
        name: "taosd_notices_left_out_total",
        help: "Notices for which there was no line.",
        kind: "counter",
    };
    push_single(out, scarce, status.scarce)?;
    push_single(out, full, status.full)?;
    push_single(out, left_out, status.left_out)
}

/// What else went wrong.
pub(crate) fn push_faults(out: &mut String, status: &Status) -> Result<(), AllocError>
    ensures { OnOk result (string_bytes out.new
        ≡ string_bytes out.old ++ faults_text status.now) }
{
    push_outside(out, status)?;
    push_lacks(out, status)
}

/// How full journals were when they were last heard of.
pub(crate) fn push_journals(out: &mut String, status: &Status) -> Result<(), AllocError>
    ensures { OnOk result (string_bytes out.new
        ≡ string_bytes out.old ++ journals_text status.now) }
{
    let shards = Family {
        name: "taosd_shard_entries",
        help: "Entries of a shard's journal, when last heard of.",
        kind: "gauge",
    };
    let objects = Family {
        name: "taosd_object_entries",
        help: "Entries of an object's journal, when last heard of.",
        kind: "gauge",
    };
    push_heading(out, shards)?;
    push_gauges(out, shards.name, "shard", &status.shards)?;
    push_heading(out, objects)?;
    push_gauges(out, objects.name, "object", &status.objects)
}
