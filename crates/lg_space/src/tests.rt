// Rectangles with each number of axes. The expected places are worked out by hand, from the order
// in which the last axis runs fastest.

use crate::{AnyRect, Point, Rect, examples, laws};
use smallvec::SmallVec;
use std::process::Abort;
use std::test::Fail;

// The index is the rectangle's, and stands at this place.
fn stands_at(rt: &impl Abort, rect: &AnyRect, index: &Point, place: u64) {
    assert!(rt; rect.contains(index));
    assert_eq!(rt; rect.ravel(index), place);
    assert!(rt; place < rect.volume());
    assert!(rt; rect.unravel(place) == *index);
}

#[test]
fn one_axis_or_none(rt: HostRuntime) -> Result<(), Fail> {
    stands_at(&rt, &AnyRect::new(&[]), &Point::new(&[]), 0);
    let rect = AnyRect::new(&[(3, 8)]);
    stands_at(&rt, &rect, &Point::new(&[3]), 0);
    stands_at(&rt, &rect, &Point::new(&[7]), 4);
    assert!(rt; !rect.contains(&Point::new(&[8])));
    Ok(())
}

#[test]
fn two_axes(rt: HostRuntime) -> Result<(), Fail> {
    let rect = AnyRect::new(&[(1, 3), (2, 5)]);
    stands_at(&rt, &rect, &Point::new(&[1, 4]), 2);
    stands_at(&rt, &rect, &Point::new(&[2, 3]), 4);
    assert_eq!(rt; rect.volume(), 6);
    assert_eq!(rt; rect.range(1), (2, 5));
    assert_eq!(rt; rect.axes(), 2);
    assert!(rt; rect.ranges() == [(1, 3), (2, 5)].as_slice());
    Ok(())
}

#[test]
fn two_axes_known_in_advance(rt: HostRuntime) -> Result<(), Fail> {
    let rect = Rect::<2>::new(&[(1, 3), (2, 5)]);
    let index = Point::new(&[2, 3]);
    assert!(rt; rect.contains(&index) && !rect.contains(&Point::new(&[2])));
    assert_eq!(rt; rect.ravel(&index), 4);
    assert!(rt; rect.unravel(4) == index);
    assert_eq!(rt; rect.volume(), 6);
    assert_eq!(rt; rect.range(0), (1, 3));
    assert!(rt; rect.ranges() == [(1, 3), (2, 5)].as_slice());
    assert!(rt; rect.intersect(&Rect::new(&[(0, 2), (4, 9)])) == Rect::new(&[(1, 2), (4, 5)]));
    assert!(rt; rect.to_any() == AnyRect::new(&[(1, 3), (2, 5)]));
    assert!(rt; Rect::from_any(&rect.to_any()) == rect);
    assert_eq!(rt; Rect::<0>::new(&[]).volume(), 1);
    Ok(())
}

#[test]
fn more_axes(rt: HostRuntime) -> Result<(), Fail> {
    let three = AnyRect::new(&[(1, 3), (0, 2), (4, 7)]);
    stands_at(&rt, &three, &Point::new(&[2, 0, 5]), 7);
    let four = AnyRect::new(&[(0, 2), (1, 3), (2, 4), (3, 5)]);
    stands_at(&rt, &four, &Point::new(&[1, 1, 3, 3]), 10);
    assert_eq!(rt; AnyRect::new(&[(0, 1 << 24), (7, 7)]).volume(), 0);
    Ok(())
}

// From the first index on, each next one has the next place, and the last one has none.
#[test]
fn one_after_another(rt: HostRuntime) -> Result<(), Fail> {
    let rect = AnyRect::new(&[(1, 3), (2, 4)]);
    assert!(rt; rect.next(&Point::new(&[1, 2])) == Some(Point::new(&[1, 3])));
    assert!(rt; rect.next(&Point::new(&[1, 3])) == Some(Point::new(&[2, 2])));
    assert!(rt; rect.next(&Point::new(&[2, 2])) == Some(Point::new(&[2, 3])));
    assert!(rt; rect.next(&Point::new(&[2, 3])) == None);
    assert!(rt; AnyRect::new(&[]).next(&Point::new(&[])) == None);
    Ok(())
}

#[test]
fn what_two_rectangles_share(rt: HostRuntime) -> Result<(), Fail> {
    let both = AnyRect::new(&[(0, 4), (2, 6)]).intersect(&AnyRect::new(&[(1, 9), (0, 5)]));
    assert!(rt; both == AnyRect::new(&[(1, 4), (2, 5)]));
    // A range from 0 to 1 adds no index, but an axis.
    assert!(rt; AnyRect::new(&[]) != AnyRect::new(&[(0, 1)]));
    Ok(())
}

// So many parts are left, which hold so many indices in all.
fn left_over(rt: &impl Abort, left: &SmallVec<AnyRect, 8>, parts: usize, volume: u64) {
    assert_eq!(rt; left.len(), parts);
    let mut sum = 0u64;
    for part in left.as_slice() {
        sum = sum.wrapping_add(part.volume());
    }
    assert_eq!(rt; sum, volume);
}

#[test]
fn what_is_left(rt: HostRuntime) -> Result<(), Fail> {
    let alloc = rt.alloc();
    let square = AnyRect::new(&[(0, 3), (0, 3)]);
    let within = AnyRect::new(&[(1, 2), (1, 2)]);
    let beside = AnyRect::new(&[(5, 7), (1, 2)]);
    let around = AnyRect::new(&[(0, 3), (0, 9)]);
    left_over(&rt, &square.subtract(alloc, &within), 4, 8);
    left_over(&rt, &square.subtract(alloc, &beside), 1, 9);
    left_over(&rt, &square.subtract(alloc, &around), 0, 0);

    let none = AnyRect::new(&[]);
    left_over(&rt, &none.subtract(alloc, &none), 0, 0);
    let empty = AnyRect::new(&[(0, 4), (3, 3)]);
    left_over(&rt, &empty.subtract(alloc, &within), 0, 0);

    let four = AnyRect::new(&[(0, 3), (0, 3), (0, 3), (0, 3)]);
    let hole = AnyRect::new(&[(1, 2), (1, 2), (1, 2), (1, 2)]);
    left_over(&rt, &four.subtract(alloc, &hole), 8, 80);
    Ok(())
}

#[test]
fn no_axes_by_default(rt: HostRuntime) -> Result<(), Fail> {
    assert!(rt; AnyRect::default() == AnyRect::new(&[]));
    Ok(())
}

// The laws have no body; that they can be called is all that there is to try.
#[test]
fn laws_and_limits(_rt: HostRuntime) -> Result<(), Fail> {
    laws::volume_counts();
    laws::places_are_exact();
    laws::rows_are_contiguous();
    examples::limits_by_example();
    Ok(())
}

// What threads may hold.
fn crosses_threads<T: Send + Sync>() {}

#[test]
fn points_and_rectangles_cross_threads(_rt: HostRuntime) -> Result<(), Fail> {
    crosses_threads::<Point>();
    crosses_threads::<AnyRect>();
    crosses_threads::<Rect<4>>();
    Ok(())
}
