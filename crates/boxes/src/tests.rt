// What a box says of lines through points of a small grid, against a look at each of its points.
use crate::Bounds;
use plane::{Point, Turn, lies_between, turn_at};

const PLACES: [(i64, i64); 9] = [
    (0, 0),
    (0, 2),
    (0, 4),
    (2, 0),
    (1, 2),
    (2, 4),
    (4, 0),
    (4, 2),
    (4, 4),
];

// A box has none right of a line exactly where each of its points isn't.
#[test]
fn right_of_lines(rt: HostRuntime) {
    let small = Bounds::around(Point { x: 1, y: 1 }).with(Point { x: 2, y: 3 });
    for (ax, ay) in PLACES {
        for (bx, by) in PLACES {
            let (a, b) = (Point { x: ax, y: ay }, Point { x: bx, y: by });
            let mut none = true;
            for (x, y) in [(1, 1), (1, 2), (1, 3), (2, 1), (2, 2), (2, 3)] {
                none = none && turn_at(a, b, Point { x, y }) != Turn::Right;
            }
            assert_eq!(rt; small.has_none_right(a, b), none, "{ax} {ay} {bx} {by}");
        }
    }
}

// A box is out of range of two points exactly where both are beyond one of its sides.
#[test]
fn out_of_range(rt: HostRuntime) {
    let small = Bounds::around(Point { x: 2, y: 1 }).with(Point { x: 1, y: 3 });
    for (ax, ay) in PLACES {
        for (bx, by) in PLACES {
            let (a, b) = (Point { x: ax, y: ay }, Point { x: bx, y: by });
            let across = (ax < 1 && bx < 1) || (ax > 2 && bx > 2);
            let upward = (ay < 1 && by < 1) || (ay > 3 && by > 3);
            assert_eq!(rt;
                small.is_out_of_range(a, b),
                across || upward,
                "{ax} {ay} {bx} {by}"
            );
        }
    }
}

// A box that is called beside has no point between the two, and it is called so wherever it is out of range, or strictly on
// one side of the line.
#[test]
fn beside_two_points(rt: HostRuntime) {
    let small = Bounds::around(Point { x: 1, y: 1 }).with(Point { x: 2, y: 3 });
    for (ax, ay) in PLACES {
        for (bx, by) in PLACES {
            let (a, b) = (Point { x: ax, y: ay }, Point { x: bx, y: by });
            let (mut between, mut left, mut right) = (false, true, true);
            for (x, y) in [(1, 1), (1, 2), (1, 3), (2, 1), (2, 2), (2, 3)] {
                between = between || lies_between(Point { x, y }, a, b);
                left = left && turn_at(a, b, Point { x, y }) == Turn::Left;
                right = right && turn_at(a, b, Point { x, y }) == Turn::Right;
            }
            let beside = small.is_beside(a, b);
            assert!(rt; !beside || !between, "{ax} {ay} {bx} {by}");
            let seen = left || right || small.is_out_of_range(a, b);
            assert_eq!(rt; beside, seen, "{ax} {ay} {bx} {by}");
        }
    }
}
