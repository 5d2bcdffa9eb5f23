// Plans of two threads whose claims are disjoint.
ghost use Rattle.std.specs.Prelude.{◌≡◌, All, IfOk, OnOk};
ghost use Rattle.std.specs.List.{AllByRecursion};
ghost use Rattle.seats.specs.Seats.{SeatSeen};

use super::making::{Answer, GRID, board_of, core_of, hand_in, last_of, pair, put_back};
use board::{Board, Pass};
use journal_defs::Edit;
use mcp_outside::{Gate, OpenGate};
use std::alloc::Global;
use std::sync::atomic::{AtomicU64, Ordering};
use std::test::Fail;
use std::thread;
use std::thread::Threads;

const TURNS: u64 = 4_000_000_000;

/// A pass at work, and what it was answered.
#[derive(Drop)]
pub struct Job {
    pub pass: Pass,
    pub first: bool,
    pub answer: Answer,
}

// Whether the flag was raised within so many turns.
fn is_raised(flag: &AtomicU64) -> bool {
    for _ in 0..TURNS {
        if flag.load(Ordering::SeqCst) == 1 {
            return true;
        }
    }
    false
}

// Holds the first caller until the second has its answer.
#[derive(Drop)]
struct Meeting {
    came: AtomicU64,
    answered: AtomicU64,
    ran_out: AtomicU64,
}

impl Gate for Meeting {
    fn between(&self, _caller: u32) {
        self.came.store(1, Ordering::SeqCst);
        if !is_raised(&self.answered) {
            self.ran_out.store(1, Ordering::SeqCst);
        }
    }
}

fn work(board: &Board, job: &mut Job, meeting: &Meeting)
    requires { job.old.pass.of ≡ board.now }
    ensures { job.new.pass.of ≡ board.now }
{
    if job.first {
        let drop = [Edit::Drop(pair(1, 3))];
        job.answer = hand_in(board, &mut job.pass, &drop, &[(1, 0), (3, 0)], meeting);
        return;
    }
    if !is_raised(&meeting.came) {
        meeting.ran_out.store(1, Ordering::SeqCst);
    }
    let drop = [Edit::Drop(pair(2, 4))];
    job.answer = hand_in(board, &mut job.pass, &drop, &[(2, 0), (4, 0)], &OpenGate);
    meeting.answered.store(1, Ordering::SeqCst);
}

fn work_all<R: Threads + Sync>(rt: &R, board: &Board, jobs: &mut [Job], meeting: &Meeting)
    requires { All (λ j. j.pass.of ≡ board.now) jobs.old }
    ensures { All (λ j. j.pass.of ≡ board.now) jobs.new }
{
    let threads = jobs.len().max(1);
    thread::for_each_mut(
        rt,
        jobs,
        threads,
        &|_, job: &mut Job|
            requires { job.old.pass.of ≡ board.now }
            ensures { job.new.pass.of ≡ board.entry.now }
        { work(board, job, meeting) },
    );
}

fn add_job(board: &Board, jobs: &mut Vec<Job>, pass: Pass, first: bool) -> Result<(), Fail>
    requires pass { pass.of ≡ board.now }
    requires jobs { All (λ j. j.pass.of ≡ board.now) jobs.old.items }
    ensures { OnOk result (All (λ j. j.pass.of ≡ board.now) jobs.new.items) }
{
    let _points = board.points();
    jobs.push(Job {
        pass,
        first,
        answer: Answer::NoPlan,
    })?;
    Ok(())
}

fn last_job(board: &Board, jobs: &mut Vec<Job>) -> Result<Job, Fail>
    requires { All (λ j. j.pass.of ≡ board.now) jobs.old.items }
    ensures job { IfOk result (λ j. j.pass.of ≡ board.now) }
    ensures rest { All (λ j. j.pass.of ≡ board.now) jobs.new.items }
{
    let _points = board.points();
    let last = jobs.pop();
    let Some(job) = last else {
        return Err(Fail::from("no job"));
    };
    Ok(job)
}

// What two threads are answered that meet, after whether one waited in vain. Their passes are put back.
fn meet<R: Threads + Sync>(
    rt: &R,
    alloc: Global,
    board: &Board,
    passes: &mut Vec<Pass>,
) -> Result<(u64, Answer, Answer), Fail>
    requires { AllByRecursion (λ (p : SeatSeen). p.of ≡ board.now) passes.old.items }
    ensures { OnOk result (AllByRecursion (λ (p : SeatSeen). p.of ≡ board.now) passes.new.items) }
{
    let second = last_of(board, passes)?;
    let first = last_of(board, passes)?;
    let mut jobs = Vec::new(alloc);
    add_job(board, &mut jobs, second, false)?;
    add_job(board, &mut jobs, first, true)?;
    let meeting = Meeting {
        came: AtomicU64::new(0),
        answered: AtomicU64::new(0),
        ran_out: AtomicU64::new(0),
    };
    work_all(rt, board, jobs.as_mut_slice(), &meeting);
    let in_vain = meeting.ran_out.load(Ordering::SeqCst);
    let one = last_job(board, &mut jobs)?;
    let other = last_job(board, &mut jobs)?;
    put_back(board, passes, one.pass)?;
    put_back(board, passes, other.pass)?;
    Ok((in_vain, one.answer, other.answer))
}

#[test]
fn two_threads_meet(rt: HostRuntime) -> Result<(), Fail> {
    let core = core_of(&rt, rt.alloc(), &GRID)?;
    let (board, mut passes) = board_of(core, 2, 10)?;
    let told = meet(&rt, rt.alloc(), &board, &mut passes)?;
    assert!(&rt; told == (0, Answer::Entered(2), Answer::Entered(1)));
    let Ok(core) = board.finish(passes) else {
        return Err(Fail::from("not finished"));
    };
    assert!(&rt; (core.journal().len(), core.count(1)) == (2, 1));
    Ok(())
}
