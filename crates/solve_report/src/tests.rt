// The report of a square, and the summary of points on a parabola, worked out by hand.
use crate::{Search, solved_line, solved_text};
use generator::Kind;
use instance_io::{Costs, Instance, Name};
use mcp_outside::OpenGate;
use plane::{Point, Points};
use std::process::Abort;
use std::test::Fail;

const REPORT: &str =
    r#"{"name":"sq","points":[{"i":0,"x":0,"y":0},{"i":1,"x":0,"y":4},{"i":2,"x":4,"y":0},{"i":3,"x":4,"y":4}]}
{"edges":[{"i":0,"j":1},{"i":0,"j":2},{"i":1,"j":3},{"i":2,"j":3}],"instance_name":"sq","type":"Solution"}
{"q":2,"rows":[],"value":4}
{"commits":[[0,1,[["d",1,2]]]],"start":[[0,1],[0,2],[1,2],[1,3],[2,3]]}
{"bound":4,"commits":[1,0],"cost":4,"edges":4,"gap":0,"optimal":true,"version":2}
"#;

#[test]
fn reports_by_hand(rt: HostRuntime) -> Result<(), Fail> {
    let mut list = Vec::new(rt.alloc());
    for (x, y) in [(0, 0), (0, 4), (4, 0), (4, 4)] {
        list.push(Point { x, y })?;
    }
    assert!(rt; list.len() < 5001);
    let instance = Instance {
        name: Name::make(String::from_str(rt.alloc(), "sq")?),
        points: Points::make(list)?,
        costs: Costs::unit(),
    };
    let search = Search {
        workers: 2,
        rounds: 0,
        seed: 1,
    };
    let text = solved_text(&rt, rt.alloc(), instance, 1, search, &OpenGate)?;
    assert_eq!(rt; text.as_slice(), REPORT.as_bytes());
    let line = solved_line(&rt, rt.alloc(), Kind::Ring, 5, 1)?;
    assert_eq!(rt;
        line.as_slice(),
        b"{\"bound\":5,\"commits\":[2],\"cost\":5,\"edges\":5,\"gap\":0,\"optimal\":true,\"version\":2}\n".as_slice()
    );
    Ok(())
}
