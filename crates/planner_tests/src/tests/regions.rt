// Looks that a region doesn't take.
use super::making::{core_of, look_at, region_of};
use planner::Region;
use replay::Core;
use std::process::Abort;
use std::test::Fail;

const GRID: [(i64, i64); 6] = [(0, 0), (10, 0), (20, 0), (0, 10), (10, 10), (20, 10)];

const CORNERS: [(i64, i64); 17] = [
    (0, 0),
    (1, 1),
    (2, 4),
    (3, 9),
    (4, 16),
    (5, 25),
    (6, 36),
    (7, 49),
    (8, 64),
    (9, 81),
    (10, 100),
    (11, 121),
    (12, 144),
    (13, 169),
    (14, 196),
    (15, 225),
    (16, 256),
];

// Whether the region takes a look at the vertex. One that is handed back is of this vertex.
fn takes(rt: &impl Abort, core: &Core, region: &mut Region, v: u32) -> Result<bool, Fail> {
    let look = look_at(core, v)?;
    match region.add(look) {
        Ok(()) => Ok(true),
        Err(back) => {
            assert!(rt; back.star.centre() == v);
            Ok(false)
        }
    }
}

#[test]
fn a_second_look_at_a_vertex(rt: HostRuntime) -> Result<(), Fail> {
    let core = core_of(&rt, rt.alloc(), &GRID)?;
    let mut region = region_of(core.points(), &core, &[0, 1, 3, 4])?;
    assert!(&rt; !takes(&rt, &core, &mut region, 4)?);
    Ok(())
}

#[test]
fn a_seventeenth_look(rt: HostRuntime) -> Result<(), Fail> {
    let core = core_of(&rt, rt.alloc(), &CORNERS)?;
    let mut region = Region::make();
    for v in 0..17 {
        let taken = takes(&rt, &core, &mut region, v)?;
        assert!(&rt; taken == (v < 16));
    }
    Ok(())
}
