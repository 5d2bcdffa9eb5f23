// The expected answers are this project's worked ones.
ghost use Rattle.std.specs.Prelude.{◌≡◌};

use super::making::{
    Answer, GRID, SQUARE, board_of, core_of, hand_in, last_of, pair, put_back, seen_at,
};
use board::{Board, FinishFault, Pass, Refusal};
use journal_defs::{Edit, Why};
use mcp_outside::OpenGate;
use std::test::Fail;

fn square_answers(board: &Board, pass: &mut Pass) -> [Answer; 4]
    requires of { pass.old.of ≡ board.now }
    ensures of { pass.new.of ≡ board.now }
{
    let across = pair(1, 2);
    let drop = [Edit::Drop(across)];
    let keep = [Edit::Keep(across)];
    let first = hand_in(board, pass, &drop, &[(1, 0), (2, 0)], &OpenGate);
    let second = hand_in(board, pass, &keep, &[(1, 0), (2, 0)], &OpenGate);
    let third = hand_in(board, pass, &keep, &[(1, 9), (2, 9)], &OpenGate);
    let fourth = hand_in(board, pass, &drop, &[(1, 1), (2, 1)], &OpenGate);
    [first, second, third, fourth]
}

#[test]
fn plans_on_a_square(rt: HostRuntime) -> Result<(), Fail> {
    let core = core_of(&rt, rt.alloc(), &SQUARE)?;
    let (board, mut passes) = board_of(core, 1, 10)?;
    let mut pass = last_of(&board, &mut passes)?;
    let wanted = [
        Answer::Entered(1),
        Answer::Refused(Refusal::Stale {
            vertex: 1,
            commit: 1,
        }),
        Answer::Refused(Refusal::Ahead { vertex: 1, last: 1 }),
        Answer::Refused(Refusal::Illegal {
            at: 0,
            why: Why::NotKept,
        }),
    ];
    assert!(&rt; square_answers(&board, &mut pass) == wanted);
    assert_eq!(&rt; seen_at(&board, &mut pass, 1), Ok((1, 2)));
    Ok(())
}

// The first of two passes commits, and the second finds no room and looks.
fn full_answers(board: &Board, first: &mut Pass, second: &mut Pass) -> [Answer; 2]
    requires of { (first.old.of ≡ board.now) × (second.old.of ≡ board.now) }
    ensures of { (first.new.of ≡ board.now) × (second.new.of ≡ board.now) }
{
    let one = hand_in(
        board,
        first,
        &[Edit::Drop(pair(1, 3))],
        &[(1, 0), (3, 0)],
        &OpenGate,
    );
    let other = hand_in(
        board,
        second,
        &[Edit::Drop(pair(2, 4))],
        &[(2, 0), (4, 0)],
        &OpenGate,
    );
    [one, other]
}

#[test]
fn a_full_journal(rt: HostRuntime) -> Result<(), Fail> {
    let core = core_of(&rt, rt.alloc(), &GRID)?;
    let (board, mut passes) = board_of(core, 2, 1)?;
    let mut second = last_of(&board, &mut passes)?;
    let mut first = last_of(&board, &mut passes)?;
    let wanted = [Answer::Entered(1), Answer::Refused(Refusal::Full)];
    assert!(&rt; full_answers(&board, &mut first, &mut second) == wanted);
    assert_eq!(&rt; seen_at(&board, &mut second, 2), Ok((0, 3)));
    put_back(&board, &mut passes, first)?;
    let Err((board, mut passes, fault)) = board.finish(passes) else {
        return Err(Fail::from("finished without a pass"));
    };
    assert_eq!(&rt; fault, FinishFault::Missing { made: 2, given: 1 });
    put_back(&board, &mut passes, second)?;
    let Ok(core) = board.finish(passes) else {
        return Err(Fail::from("not finished"));
    };
    assert_eq!(&rt; core.journal().len(), 1);
    Ok(())
}
