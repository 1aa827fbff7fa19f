ghost use Rattle.std.specs.Prelude.{[], ◌∷◌, slice_index};

use keymap::{Entry, Full, Key, KeyMap};
use std::test::Fail;

// A number, which is its own hash. In a table of three entries probing for 0 begins at entry 0, for 1 and 2 at 1, for 3, 4 and 5
// at 2.
#[derive(Clone, Copy)]
struct Number {
    n: u32,
}

impl Key for Number {
    ghost meaning = { λ k. k.n ∷ [] };

    ghost hashed = { λ m. slice_index m 0 };

    fn same(&self, other: &Number) -> bool {
        self.n == other.n
    }

    fn hash(&self) -> u32 {
        self.n
    }
}

#[test]
fn probing_wraps_round(rt: HostRuntime) -> Result<(), Fail> {
    let mut entries: [Option<Entry<Number>>; 3] = [None; 3];
    let mut map = KeyMap::over(&mut entries);
    map.insert(Number { n: 3 }, 30)?;
    map.insert(Number { n: 4 }, 40)?;
    assert_eq!(rt; map.get(&Number { n: 3 }), Some(30));
    assert_eq!(rt; map.get(&Number { n: 4 }), Some(40));
    assert_eq!(rt; map.get(&Number { n: 5 }), None);
    assert_eq!(rt; entries[2].map(|entry| entry.key.n), Some(3));
    assert_eq!(rt; entries[0].map(|entry| entry.key.n), Some(4));
    assert_eq!(rt; entries[1].map(|entry| entry.key.n), None);
    Ok(())
}

#[test]
fn held_number_is_replaced(rt: HostRuntime) -> Result<(), Fail> {
    let mut entries = vec![in rt.alloc(); None; 3]?;
    let mut map = KeyMap::over(&mut entries);
    map.insert(Number { n: 1 }, 10)?;
    map.insert(Number { n: 1 }, 11)?;
    assert_eq!(rt; map.get(&Number { n: 1 }), Some(11));
    map.clear();
    assert_eq!(rt; map.get(&Number { n: 1 }), None);
    Ok(())
}

#[test]
fn no_entries_is_full(rt: HostRuntime) {
    let mut entries: [Option<Entry<Number>>; 0] = [None; 0];
    let mut map = KeyMap::over(&mut entries);
    assert_eq!(rt; map.get(&Number { n: 1 }), None);
    assert_eq!(rt; map.insert(Number { n: 1 }, 10), Err(Full));
}

#[test]
fn full_when_no_entry_is_free(rt: HostRuntime) -> Result<(), Fail> {
    let mut entries: [Option<Entry<Number>>; 3] = [None; 3];
    let mut map = KeyMap::over(&mut entries);
    map.insert(Number { n: 1 }, 10)?;
    map.insert(Number { n: 2 }, 20)?;
    map.insert(Number { n: 3 }, 30)?;
    assert_eq!(rt; map.insert(Number { n: 4 }, 40), Err(Full));
    assert_eq!(rt; map.get(&Number { n: 4 }), None);
    assert_eq!(rt; map.get(&Number { n: 3 }), Some(30));
    map.insert(Number { n: 3 }, 31)?;
    assert_eq!(rt; map.get(&Number { n: 3 }), Some(31));
    Ok(())
}
