use node_telling::{Happening, Journals, Tally, push_page, status_of};
use std::sync::Arc;
use std::test::*;

// Lines of the page of two lanes: one wrote two replies of status 5, in 100 and 101 microseconds, and the other one.
const LINES: &[&str] = &[
    "taosd_replies_total{status=\"4\"} 0\n",
    "taosd_replies_total{status=\"5\"} 3\n",
    "taosd_reply_microseconds_bucket{le=\"100\"} 1\n",
    "taosd_reply_microseconds_bucket{le=\"250\"} 2\n",
    "taosd_reply_microseconds_bucket{le=\"10000000\"} 2\n",
    "taosd_reply_microseconds_bucket{le=\"+Inf\"} 3\n",
    "taosd_reply_microseconds_sum 10000202\n",
    "taosd_connections_total 2\n",
    "taosd_connections_open 1\n",
    "taosd_answers_total{code=\"11\"} 1\n",
    "taosd_relay_faults_total 1\n",
    "taosd_shard_entries{shard=\"3\"} 17\n",
    "taosd_object_entries{object=\"259\"} 1\n",
    "taosd_object_entries{object=\"3\"} 2\n",
];

#[test]
fn what_lanes_count_is_on_the_page(rt: HostRuntime) -> Result<(), Fail> {
    let alloc = rt.alloc();
    let (one, other) = (Tally::new(alloc)?, Tally::new(alloc)?);
    for micros in [100, 101] {
        one.replied(5);
        one.took(micros);
    }
    other.replied(5);
    other.took(10_000_001);
    one.came();
    other.came();
    other.went();
    one.answered(11);
    // A code that no relay gives, and a status that no reply has, are of no count.
    one.answered(7);
    one.replied(200);
    one.happened(Happening::RelayFailed);
    let journals = Journals::new(alloc)?;
    assert!(rt; !journals.heard(3, 17));
    for object in [3, 259, 3] {
        assert!(rt; journals.ruled(object).is_none());
    }
    let mut tallies = Vec::new(alloc);
    tallies.push(Arc::new(alloc, one)?)?;
    tallies.push(Arc::new(alloc, other)?)?;
    let status = status_of(alloc, 9, &tallies, &journals)?;
    let mut text = String::new(alloc);
    push_page(alloc, &mut text, "0.1.0", &status)?;
    for line in LINES {
        assert!(rt; text.as_str().contains(*line), "{line}");
    }
    Ok(())
}

#[test]
fn a_journal_is_told_of_once_it_has_80_of_100(rt: HostRuntime) -> Result<(), Fail> {
    let journals = Journals::new(rt.alloc())?;
    journals.have_room(20);
    for (shard, entries, is_told) in [
        (0, 15, false),
        (0, 16, true),
        (0, 17, false),
        (1, 20, true),
        (64, 20, false),
    ] {
        assert_eq!(rt;
            journals.heard(shard, entries),
            is_told,
            "at {entries} of {shard}"
        );
    }
    for entries in 1..21u64 {
        let told = match entries {
            16 => Some(16),
            _ => None,
        };
        assert!(rt; journals.ruled(u32::MAX) == told, "at {entries}");
    }
    Ok(())
}
