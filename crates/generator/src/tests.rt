use crate::{Kind, generate};
use plane::Point;
use std::test::Fail;

// The points of generated instances by their index. The values come from an independent program, which agrees with the
// generator's published reference.
#[test]
fn points_by_kind_and_index(rt: HostRuntime) -> Result<(), Fail> {
    let cases: [(Kind, u32, u64, u32, i64, i64); 16] = [
        (Kind::Scatter, 100, 7, 0, 0, 0),
        (Kind::Scatter, 100, 7, 1, 100_000, 0),
        (Kind::Scatter, 100, 7, 2, 0, 100_000),
        (Kind::Scatter, 100, 7, 3, 1850, 54_047),
        (Kind::Scatter, 100, 7, 4, 2312, 53_632),
        (Kind::Scatter, 100, 7, 98, 96_703, 60_003),
        (Kind::Scatter, 100, 7, 99, 97_033, 9156),
        (Kind::Scatter, 5, 1, 3, 1849, 2765),
        (Kind::Scatter, 5, 1, 4, 2655, 1428),
        (Kind::Grid, 6, 0, 5, 20, 10),
        (Kind::Grid, 5000, 1, 4999, 290, 700),
        (Kind::Grid, 3, 0, 2, 0, 10),
        (Kind::Ring, 5, 3, 2, 2, 4),
        (Kind::Ring, 5000, 0, 4999, 4999, 24_990_001),
        (Kind::Wide, 3, 1, 2, 2_199_023_255_552, 274_877_906_944),
        (
            Kind::Wide,
            5000,
            1,
            4999,
            5_496_458_627_252_224,
            1_717_299_792_352_116_736,
        ),
    ];
    for (kind, n, seed, k, x, y) in cases {
        assert!(rt; 3 <= n && n <= 5000);
        let instance = generate(rt.alloc(), kind, n, seed)?;
        assert_eq!(rt; instance.points.len(), n);
        assert_eq!(rt; instance.costs.list().len(), 0);
        assert!(rt; k < instance.points.len());
        assert_eq!(rt;
            instance.points.at(k),
            Point { x, y },
            "{kind:?} {n} {seed} at {k}"
        );
    }
    Ok(())
}

#[test]
fn names_by_kind_count_and_seed(rt: HostRuntime) -> Result<(), Fail> {
    let cases = [
        (Kind::Wide, 3, 1, "wide-3-1"),
        (Kind::Scatter, 100, 7, "scatter-100-7"),
        (Kind::Grid, 6, 0, "grid-6-0"),
        (Kind::Ring, 3, u64::MAX, "ring-3-18446744073709551615"),
    ];
    for (kind, n, seed, name) in cases {
        assert!(rt; 3 <= n && n <= 5000);
        let instance = generate(rt.alloc(), kind, n, seed)?;
        assert_eq!(rt; instance.name.as_str(), name);
    }
    Ok(())
}
