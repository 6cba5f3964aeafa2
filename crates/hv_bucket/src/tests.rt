//! Buckets at their ends. Expected values are worked by hand.

use crate::{Axis, Buckets, IntBuckets, Place, TextBuckets};
use hv_value::{CellRef, Text};
use std::test::Fail;

#[test]
fn numbers_are_put_into_equal_buckets(rt: HostRuntime) -> Result<(), Fail> {
    let buckets = Buckets::Int(IntBuckets::new(0, 9, 5)?);
    assert_eq!(rt; buckets.len(), 5);
    assert_eq!(rt; buckets.bucket_of(CellRef::Int(9)), Place::In(4));
    assert_eq!(rt; buckets.bucket_of(CellRef::Int(10)), Place::Outside);
    Ok(())
}

#[test]
fn texts_are_put_after_their_left_boundary(rt: HostRuntime) -> Result<(), Fail> {
    let bounds = vec![in rt.alloc(); Text::of(rt.alloc(), "b")?]?;
    let buckets = Buckets::Text(TextBuckets::new(bounds)?);
    let axis = Axis { col: 0, buckets };
    let copy = axis.copied(rt.alloc())?;
    assert_eq!(rt; copy.buckets.bucket_of(CellRef::Text("c")), Place::In(0));
    Ok(())
}
