// A second pass hands in plans while the first is between its edits and the journal.
ghost use Rattle.std.specs.Prelude.{◌≡◌};

use super::making::{Answer, GRID, board_of, core_of, hand_in, last_of, pair, plan_of, seen_at};
use board::{Board, HeldPlace, LookFault, Pass, Refusal};
use journal_defs::{Edit, Why};
use mcp_outside::{Gate, OpenGate};
use std::cell::Cell;
use std::test::Fail;

// A board with a pass of it, and what its calls were answered.
#[derive(Drop)]
struct Both<'a> {
    board: &'a Board,
    pass: Pass,
    seen: Option<LookFault>,
    busy: Option<Answer>,
    held: Option<HeldPlace>,
    entered: Option<Answer>,
    ghost of: { pass.of ≡ board.now },
}

#[derive(Drop)]
struct HostileGate<'a> {
    both: Cell<Option<Both<'a>>>,
}

fn hinder<'a>(both: Both<'a>) -> Both<'a> {
    let Both {
        board,
        mut pass,
        seen: _,
        busy: _,
        held: _,
        entered: _,
    } = both;
    let seen = seen_at(board, &mut pass, 1).err();
    let other = [Edit::Drop(pair(1, 4))];
    let busy = hand_in(board, &mut pass, &other, &[(1, 0), (4, 0)], &OpenGate);
    let held = match plan_of(board, &other, &[(1, 0), (4, 0)]) {
        None => None,
        Some(plan) => match board.refresh(&mut pass, plan) {
            Ok(_) => None,
            Err((_, held)) => Some(held),
        },
    };
    let entered = hand_in(
        board,
        &mut pass,
        &[Edit::Drop(pair(2, 4))],
        &[(2, 0), (4, 0)],
        &OpenGate,
    );
    Both {
        board,
        pass,
        seen,
        busy: Some(busy),
        held,
        entered: Some(entered),
    }
}

impl<'a> Gate for HostileGate<'a> {
    fn between(&self, _caller: u32) {
        if let Some(both) = self.both.take() {
            self.both.set(Some(hinder(both)));
        }
    }
}

// The first pass's plan, and what the second was answered meanwhile.
fn meanwhile<'a>(board: &'a Board, first: &mut Pass, second: Pass) -> (Answer, Option<Both<'a>>)
    requires of { (first.old.of ≡ board.now) × (second.of ≡ board.now) }
    ensures of { first.new.of ≡ board.now }
{
    let both = Both {
        board,
        pass: second,
        seen: None,
        busy: None,
        held: None,
        entered: None,
    };
    let gate = HostileGate {
        both: Cell::new(Some(both)),
    };
    let drop = [Edit::Drop(pair(1, 3))];
    let answer = hand_in(board, first, &drop, &[(1, 0), (3, 0)], &gate);
    (answer, gate.both.into_inner())
}

// Whether place 1 was missed, which the first caller held, and the plan apart from it was entered.
fn is_hindered(both: &Both) -> bool {
    let place = 1;
    let holder = 1;
    let busy = Refusal::Busy { place, holder };
    both.seen == Some(LookFault::Busy { place, holder })
        && both.busy == Some(Answer::Refused(busy))
        && both.held == Some(HeldPlace { place, holder })
        && both.entered == Some(Answer::Entered(1))
}

// Later plans of the second pass.
fn later(board: &Board, pass: &mut Pass) -> [Answer; 5]
    requires of { pass.old.of ≡ board.now }
    ensures of { pass.new.of ≡ board.now }
{
    let keep = [Edit::Keep(pair(2, 4))];
    let stale = hand_in(board, pass, &keep, &[(2, 0), (4, 0)], &OpenGate);
    let fresh = match plan_of(board, &keep, &[(2, 0), (4, 0)]) {
        None => Answer::NoPlan,
        Some(plan) => match board.refresh(pass, plan) {
            Err(_) => Answer::NoPlan,
            Ok(plan) => {
                let claims = plan.claims();
                let stamps = (claims.len(), claims.iter().all(|c| c.stamp == 1));
                if stamps != (2, true) {
                    return [Answer::NoPlan; 5];
                }
                hand_in(board, pass, &keep, &[(2, 1), (4, 1)], &OpenGate)
            }
        },
    };
    let across = Edit::Drop(pair(1, 4));
    let twice = hand_in(board, pass, &[across, across], &[(1, 2), (4, 3)], &OpenGate);
    if seen_at(board, pass, 1) != Ok((2, 3)) {
        return [Answer::NoPlan; 5];
    }
    let back = [across, Edit::Keep(pair(1, 4))];
    let both = hand_in(board, pass, &back, &[(1, 2), (4, 3)], &OpenGate);
    let wide = [Edit::Drop(pair(2, 4))];
    let more = hand_in(board, pass, &wide, &[(2, 3), (4, 4), (5, 0)], &OpenGate);
    [stale, fresh, twice, both, more]
}

#[test]
fn plans_handed_in_meanwhile(rt: HostRuntime) -> Result<(), Fail> {
    let core = core_of(&rt, rt.alloc(), &GRID)?;
    let (board, mut passes) = board_of(core, 2, 10)?;
    let second = last_of(&board, &mut passes)?;
    let mut first = last_of(&board, &mut passes)?;
    let (answer, both) = meanwhile(&board, &mut first, second);
    assert!(&rt; answer == Answer::Entered(2));
    let Some(both) = both else {
        return Err(Fail::from("no second pass"));
    };
    assert!(&rt; is_hindered(&both));
    let mut both = both;
    let wanted = [
        Answer::Refused(Refusal::Stale {
            vertex: 2,
            commit: 1,
        }),
        Answer::Entered(3),
        Answer::Refused(Refusal::Illegal {
            at: 1,
            why: Why::NotKept,
        }),
        Answer::Entered(4),
        Answer::Entered(5),
    ];
    assert!(&rt; later(both.board, &mut both.pass) == wanted);
    assert!(&rt; seen_at(both.board, &mut both.pass, 5) == Ok((0, 2)));
    Ok(())
}
