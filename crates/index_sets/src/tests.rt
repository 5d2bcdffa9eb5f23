ghost use Rattle.std.specs.Prelude.{◌≡◌};

use crate::Entry;

#[derive(Clone, Copy)]
struct Visit {
    caller: u32,
    place: u32,
}

impl Entry for Visit {
    ghost use Rattle.std.specs.Prelude.{nat_eq};

    ghost caller = { λ v. v.caller };

    ghost touches = { λ v place. nat_eq v.place place };

    fn caller(&self) -> u32 {
        self.caller
    }

    fn touches(&self, place: u32) -> bool {
        self.place == place
    }
}

fn caller_of<T: Entry>(entry: &T) -> u32
    ensures { result ≡ T.caller entry.now }
{
    entry.caller()
}

fn is_touched<T: Entry>(entry: &T, place: u32) -> bool
    ensures { result ≡ T.touches entry.now place }
{
    entry.touches(place)
}

#[test]
fn an_entry_tells_its_caller_and_its_places(rt: HostRuntime) {
    let visit = Visit {
        caller: 3,
        place: 7,
    };
    assert_eq!(rt; caller_of(&visit), 3);
    assert!(rt; is_touched(&visit, 7));
    assert!(rt; !is_touched(&visit, 3));
}
