use crate::{
    areas_of_four, between_is_amid, four_in_order, orientation_turns, point_beyond_a_side,
    points_in_line, segments_on_two_sides,
};
use plane::{Point, Points};
use std::process::Abort;
use std::test::Fail;

// A law does nothing: each is called at points that meet its condition.
#[test]
fn each_law_can_be_called(rt: HostRuntime) -> Result<(), Fail> {
    let mut list = Vec::new(rt.alloc());
    for (x, y) in [(0, 0), (4, 0), (2, 3), (2, -3), (8, 0), (6, 5)] {
        list.push(Point { x, y })?;
    }
    assert!(rt; list.len() < 5001);
    let points = Points::make(list)?;
    orientation_turns(&points, 0, 1, 2);
    areas_of_four(&points, 0, 1, 2, 3);
    four_in_order(&points, 0, 2, 1, 4);
    between_is_amid(&points, 1, 0, 4);
    point_beyond_a_side(&points, 0, 1, 3, 2, 5);
    assert!(rt; points.len() > 1 && points.at(0) != points.at(1));
    points_in_line(&points, 0, 1, 0, 1, 4);
    segments_on_two_sides(&points, 0, 1, 0, 3, 2, 5);
    Ok(())
}
