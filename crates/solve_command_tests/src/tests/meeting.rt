// Two edit workers of one run that wait for each other. That edit workers run beside each other rests on this test.
use super::{SOUND, commits_of, cost_of, ran, reversed};
use mcp_outside::Gate;
use solver_top::Status;
use std::sync::atomic::{AtomicU64, Ordering};
use std::test::Fail;

const TURNS: u64 = 4_000_000_000;

// Whether the flag was raised within so many turns.
fn is_raised(flag: &AtomicU64) -> bool {
    for _ in 0..TURNS {
        if flag.load(Ordering::SeqCst) == 1 {
            return true;
        }
    }
    false
}

// Holds each of callers 1 and 2 at its first call until the other has come, and tells whether one waited in vain.
#[derive(Drop)]
struct Meeting {
    first: AtomicU64,
    second: AtomicU64,
    in_vain: AtomicU64,
}

impl Meeting {
    fn meet(&self, own: &AtomicU64, other: &AtomicU64) {
        own.store(1, Ordering::SeqCst);
        if self.in_vain.load(Ordering::SeqCst) == 0 && !is_raised(other) {
            self.in_vain.store(1, Ordering::SeqCst);
        }
    }
}

impl Gate for Meeting {
    fn between(&self, caller: u32) {
        match caller {
            1 => self.meet(&self.first, &self.second),
            2 => self.meet(&self.second, &self.first),
            _ => {}
        }
    }
}

#[test]
fn two_edit_workers_meet(rt: HostRuntime) -> Result<(), Fail> {
    let meeting = Meeting {
        first: AtomicU64::new(0),
        second: AtomicU64::new(0),
        in_vain: AtomicU64::new(0),
    };
    let input = reversed(&rt, rt.alloc())?;
    let line = "solve 2 0 50 7";
    let (status, report) = ran(&rt, rt.alloc(), (line, &input), SOUND, &meeting)?;
    assert_eq!(rt; status, Status::Done);
    assert_eq!(rt;
        meeting.first.load(Ordering::SeqCst),
        1,
        "caller 1 never came"
    );
    assert_eq!(rt;
        meeting.second.load(Ordering::SeqCst),
        1,
        "caller 2 never came"
    );
    assert_eq!(rt;
        meeting.in_vain.load(Ordering::SeqCst),
        0,
        "the turns ran out"
    );
    let commits = commits_of(rt.alloc(), &report)?;
    assert_eq!(rt; commits.len(), 3);
    assert!(rt;
        commits.iter().skip(1).any(|count| *count > 0),
        "no commit of theirs"
    );
    let _cost = cost_of(&rt, rt.alloc(), &report)?;
    Ok(())
}
