ghost use Rattle.std.specs.Prelude.{◌≡◌, nat_eq};
ghost use Rattle.hv_cache.specs.Recent.{recent};
ghost use Rattle.hv_cache.specs.Results.{found, brought_front};

use crate::Results;
use std::test::*;

/// A caller of `get`, which learns the value and what the call leaves.
fn hit(results: &mut Results<u32, u64>, key: u32) -> Option<u64>
    ensures value { result ≡ found nat_eq key results.old.pairs }
    ensures brought { results.new ≡ recent results.old.capacity (brought_front nat_eq key results.old.pairs) }
{
    results.get(&key).copied()
}

#[test]
fn room_for_one_keeps_the_newest(rt: HostRuntime) -> Result<(), Fail> {
    let mut results = Results::new(rt.alloc(), 1)?;
    assert!(rt; results.put(1, 10).is_ok());
    assert!(rt; results.put(2, 20).is_ok());
    assert_eq!(rt; hit(&mut results, 1), None);
    assert_eq!(rt; hit(&mut results, 2), Some(20));
    assert_eq!(rt; results.peek(&2).copied(), Some(20));
    assert!(rt; results.drop_oldest());
    assert!(rt; !results.drop_oldest());
    Ok(())
}

#[test]
fn the_oldest_used_goes(rt: HostRuntime) -> Result<(), Fail> {
    let mut results = Results::new(rt.alloc(), 2)?;
    assert!(rt; results.put(1, 10).is_ok());
    assert!(rt; results.put(2, 20).is_ok());
    // a key that is there gets the new value, and is the newest used
    assert!(rt; results.put(1, 11).is_ok());
    assert_eq!(rt; results.len(), 2);
    assert!(rt; results.put(3, 30).is_ok());
    assert_eq!(rt; results.peek(&2).copied(), None);
    assert_eq!(rt; results.peek(&1).copied(), Some(11));
    results.clear();
    assert_eq!(rt; results.len(), 0);
    Ok(())
}
