use crate::meeting::When;
use crate::opening::hand_off;
use crate::seats::{Ended, run};
use crate::tasks::{Deed, Job, Report, Task};
use agent_core::{DropCause, Settled, Told};
use std::test::Fail;

// The places of the entries of steps.
fn places(report: &Option<Report>) -> &[u64] {
    match report {
        Some(report) => match &report.deed {
            Deed::Stepped(places) => places,
            _ => &[],
        },
        None => &[],
    }
}

// Whether the task was done, and the other thread was met.
fn met(report: &Option<Report>) -> bool {
    match report {
        Some(report) => report.met,
        None => false,
    }
}

// How an ask ended: its place, whether it was granted, and what became of its proof.
fn asked(report: &Option<Report>) -> Option<(u64, bool, Settled)> {
    match report {
        Some(report) => match &report.deed {
            Deed::Asked(place, is_granted, settled) => Some((*place, *is_granted, *settled)),
            _ => None,
        },
        None => None,
    }
}

// The number of the object that was taken.
fn took(report: &Option<Report>) -> Option<u32> {
    match report {
        Some(report) => match &report.deed {
            Deed::Took(number) => *number,
            _ => None,
        },
        None => None,
    }
}

// How many asks were answered.
fn answered(report: &Option<Report>) -> Option<u64> {
    match report {
        Some(report) => match &report.deed {
            Deed::Answered(count) => Some(*count),
            _ => None,
        },
        None => None,
    }
}

// Whether the one shard's journal tells this, and nothing else.
fn tells(ended: &Ended, tolds: &[Told]) -> bool {
    let [shard] = ended.shards.as_slice() else {
        return false;
    };
    let journal = shard.journal();
    if journal.len() != tolds.len() {
        return false;
    }
    for (entry, told) in journal.iter().zip(tolds) {
        if entry.told != *told {
            return false;
        }
    }
    true
}

// Whether the one shard's journal has so many entries.
fn is_long(ended: &Ended, count: usize) -> bool {
    let [shard] = ended.shards.as_slice() else {
        return false;
    };
    shard.journal().len() == count
}

// Whether each number below this stands in one of the two lists, and in one alone.
fn are_apart(first: &[u64], second: &[u64], count: u64) -> bool {
    for place in 0..count {
        if first.contains(&place) == second.contains(&place) {
            return false;
        }
    }
    true
}

// The first does its task, and in the middle of it the second all of its own.
fn first(task: Task) -> Job {
    Job {
        when: When::Within,
        task,
    }
}

fn second(task: Task) -> Job {
    Job {
        when: When::Between,
        task,
    }
}

// Asks by what it presents, or by what is held.
fn ask(seq: u64, presents: bool) -> Task {
    Task::Ask { seq, presents }
}

#[test]
fn two_threads_step_one_shard_a_hundred_times_each(rt: HostRuntime) -> Result<(), Fail> {
    let job = Job {
        when: When::Before,
        task: Task::Expire(100),
    };
    let made = run(&rt, rt.alloc(), job, job, Task::Expire(3))?;
    assert!(rt; met(&made.first) && met(&made.second));
    let mine = places(&made.first);
    let yours = places(&made.second);
    assert_eq!(rt; (mine.len(), yours.len()), (100, 100));
    assert!(rt; are_apart(mine, yours, 200));

    // The seat that was given back had places: who has both now goes on after these.
    assert_eq!(rt; places(&made.last), [200, 201, 202].as_slice());
    assert!(rt; is_long(&made, 203));
    Ok(())
}

#[test]
fn an_ask_is_answered_while_another_is_decided(rt: HostRuntime) -> Result<(), Fail> {
    let (one, two) = (first(ask(1, true)), second(ask(2, false)));
    let made = run(&rt, rt.alloc(), one, two, ask(3, false))?;
    assert!(rt; met(&made.first) && met(&made.second));
    assert!(rt; asked(&made.first) == Some((0, true, Settled::Kept)));
    assert!(rt; asked(&made.second) == Some((1, true, Settled::Kept)));
    assert!(rt; asked(&made.last) == Some((4, true, Settled::NoNeed)));
    let tolds = [
        Told::Miss,
        Told::Miss,
        Told::Kept,
        Told::Kept,
        Told::Hit { entry: 0 },
    ];
    assert!(rt; tells(&made, &tolds));
    Ok(())
}

#[test]
fn what_is_let_go_between_is_not_kept_and_the_grant_stands(rt: HostRuntime) -> Result<(), Fail> {
    let (one, two) = (first(ask(1, true)), second(Task::Discard));
    let made = run(&rt, rt.alloc(), one, two, ask(2, false))?;
    assert!(rt; met(&made.first) && met(&made.second));
    let digest = hand_off(rt.alloc())?.digest;
    let cause = DropCause::NotHeld { digest };
    assert!(rt; asked(&made.first) == Some((0, true, Settled::Dropped(cause))));
    assert_eq!(rt; places(&made.second), [1].as_slice());
    assert!(rt; asked(&made.last) == Some((3, false, Settled::NoNeed)));
    let tolds = [
        Told::Miss,
        Told::Removed { count: 1 },
        Told::Dropped(cause),
        Told::Miss,
    ];
    assert!(rt; tells(&made, &tolds));
    Ok(())
}

// Ten of the numbers' certificates are presented at both seats, and in all more than 32 MiB.
#[test]
fn seats_answer_however_much_was_presented(rt: HostRuntime) -> Result<(), Fail> {
    let mine = Job {
        when: When::Before,
        task: Task::Present {
            first: 1,
            count: 130,
        },
    };
    let yours = Job {
        when: When::Before,
        task: Task::Present {
            first: 121,
            count: 130,
        },
    };
    let more = Task::Present {
        first: 250,
        count: 2,
    };
    let made = run(&rt, rt.alloc(), mine, yours, more)?;
    assert!(rt; met(&made.first) && met(&made.second));
    assert_eq!(rt; answered(&made.first), Some(130));
    assert_eq!(rt; answered(&made.second), Some(130));
    assert_eq!(rt; answered(&made.last), Some(2));
    assert!(rt; is_long(&made, 262));
    Ok(())
}

#[test]
fn two_objects_are_taken_at_one_time(rt: HostRuntime) -> Result<(), Fail> {
    let (one, two) = (first(Task::Take(5)), second(Task::Take(6)));
    let made = run(&rt, rt.alloc(), one, two, Task::Take(5))?;
    assert!(rt; met(&made.first) && met(&made.second));
    assert_eq!(rt; (took(&made.first), took(&made.second)), (Some(5), Some(6)));
    assert_eq!(rt; took(&made.last), Some(5));
    let [five, six] = made.objects.as_slice() else {
        return Err(Fail::new("not two"));
    };
    assert_eq!(rt; (five.number(), six.number()), (5, 6));
    Ok(())
}
