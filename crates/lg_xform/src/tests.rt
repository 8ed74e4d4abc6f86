// The expected indices and rectangles are worked out by hand.

ghost use Rattle.std.specs.Prelude.{◌≤◌};
ghost use Rattle.lg_space.specs.Stored.{MAX_VOLUME};
ghost use Rattle.lg_shape.specs.Shapes.{size_of};
ghost use Rattle.lg_xform.specs.Chains.{root_of};

use crate::{Chain, Strides};
use lg_shape::{IndexFault, IndexItem, Shape, Step, broadcast};
use lg_space::{AnyRect, Point};
use std::process::Abort;
use std::test::Fail;

// What stands behind the axes of a transpose.
const UNUSED: u8 = 9;

// A root of (2, 3) with its axes exchanged, and two columns of it.
#[test]
fn transposed(rt: HostRuntime) -> Result<(), Fail> {
    let root = Chain::whole(&Shape::new(&[2, 3]));
    let view = root.apply(&Step::Transpose {
        axes: [1, 0, UNUSED, UNUSED],
    });
    assert!(rt; view.shape() == Shape::new(&[3, 2]) && view.root() == Shape::new(&[2, 3]));
    assert!(rt; view.map_point(&Point::new(&[2, 1])) == Point::new(&[1, 2]));
    let footprint = view.footprint(&AnyRect::new(&[(0, 2), (1, 2)]));
    assert!(rt; footprint == AnyRect::new(&[(1, 2), (0, 2)]));
    let strides = view.strides(
        &AnyRect::new(&[(0, 2), (1, 3)]),
        &AnyRect::new(&[(1, 3), (0, 2)]),
    );
    assert_eq!(rt; strides.base, 0);
    assert_eq!(rt; strides.axes, [1, 2, 0, 0]);
    Ok(())
}

// A root of six elements as two rows of three, of which the second is taken.
#[test]
fn split(rt: HostRuntime) -> Result<(), Fail> {
    let root = Chain::whole(&Shape::new(&[6]));
    let view = root.apply(&Step::Delinearize {
        sizes: Shape::new(&[2, 3]),
    });
    assert_eq!(rt; view.whole_axes(), [false, true, false, false]);
    assert!(rt; view.map_point(&Point::new(&[1, 2])) == Point::new(&[5]));
    let footprint = view.footprint(&AnyRect::new(&[(1, 2), (0, 3)]));
    assert!(rt; footprint == AnyRect::new(&[(3, 6)]));
    Ok(())
}

// Every second of ten elements, and the last two of those four, the last one first: 7 and 3.
#[test]
fn sliced(rt: HostRuntime) -> Result<(), Fail> {
    let view = Chain::whole(&Shape::new(&[10])).apply_all(&[
        Step::Slice {
            axis: 0,
            start: 1,
            len: 4,
            step: 2,
        },
        Step::Slice {
            axis: 0,
            start: 3,
            len: 2,
            step: -2,
        },
    ]);
    assert!(rt; view.shape() == Shape::new(&[2]));
    assert!(rt; view.map_point(&Point::new(&[0])) == Point::new(&[7]));
    assert!(rt; view.map_point(&Point::new(&[1])) == Point::new(&[3]));
    Ok(())
}

// A new axis on which nothing depends, at an index of the old one; and a view without indices.
#[test]
fn promoted(rt: HostRuntime) -> Result<(), Fail> {
    let view = Chain::whole(&Shape::new(&[3])).apply_all(&[
        Step::Promote { axis: 0, extent: 4 },
        Step::Project { axis: 1, index: 2 },
    ]);
    assert!(rt; view.shape() == Shape::new(&[4]));
    assert!(rt; view.map_point(&Point::new(&[3])) == Point::new(&[2]));
    assert!(rt; view.footprint(&AnyRect::new(&[(0, 4)])) == AnyRect::new(&[(2, 3)]));
    let scalar = Chain::whole(&Shape::new(&[]));
    assert!(rt; scalar.footprint(&AnyRect::new(&[])) == AnyRect::new(&[]));
    Ok(())
}

// The last of four rows, and the three columns in the middle of five. There is no fifth row.
#[test]
fn indexed(rt: HostRuntime) -> Result<(), Fail> {
    let root = Chain::whole(&Shape::new(&[4, 5]));
    let columns = IndexItem::Slice {
        start: Some(1),
        stop: Some(-1),
        step: None,
    };
    let Ok(view) = root.index(rt.alloc(), &[IndexItem::At(-1), columns]) else {
        panic!(rt; "the index has no fault");
    };
    assert!(rt; view.shape() == Shape::new(&[3]));
    let last = Point::new(&[2]);
    assert!(rt; view.shape().whole().contains(&last));
    assert!(rt; view.map_point(&last) == Point::new(&[3, 3]));
    let fault = root.index(
        rt.alloc(),
        &[IndexItem::Ellipsis, IndexItem::At(4), columns],
    );
    assert!(rt; matches!(fault, Err(IndexFault::OutOfRange { item: 1 })));
    Ok(())
}

// Repeated to a shape, the view has these elements of the root, in row-major order.
fn repeats(rt: &impl Abort, view: &Chain, to: &Shape, places: &[u64])
    requires root { size_of (root_of view.now) ≤ MAX_VOLUME }
    requires to { size_of to.now ≤ MAX_VOLUME }
{
    let Ok(joined) = broadcast(&view.shape(), to) else {
        panic!(rt; "the shapes do not broadcast");
    };
    assert!(rt; joined.extents() == to.extents());
    let repeated = view.broadcast(to);
    let (root, whole) = (repeated.root().whole(), to.whole());
    assert_eq!(rt; whole.volume(), places.len() as u64);
    for (k, place) in places.iter().enumerate() {
        let at = repeated.map_point(&whole.unravel(k as u64));
        assert_eq!(rt; root.ravel(&at), *place);
    }
}

// What `numpy.broadcast_to` gives of `numpy.arange(n).reshape(shape)`.
#[test]
fn repeated(rt: HostRuntime) -> Result<(), Fail> {
    let table: [(&[u64], &[u64], &[u64]); 9] = [
        (&[], &[3], &[0, 0, 0]),
        (&[1], &[4], &[0, 0, 0, 0]),
        (&[3], &[2, 3], &[0, 1, 2, 0, 1, 2]),
        (&[2, 1], &[2, 3], &[0, 0, 0, 1, 1, 1]),
        (&[1, 3], &[2, 3], &[0, 1, 2, 0, 1, 2]),
        (&[2, 3], &[2, 3], &[0, 1, 2, 3, 4, 5]),
        (
            &[2, 1, 3],
            &[4, 2, 5, 3],
            &[
                0, 1, 2, 0, 1, 2, 0, 1, 2, 0, 1, 2, 0, 1, 2, 3, 4, 5, 3, 4, 5, 3, 4, 5, 3, 4, 5, 3,
                4, 5, 0, 1, 2, 0, 1, 2, 0, 1, 2, 0, 1, 2, 0, 1, 2, 3, 4, 5, 3, 4, 5, 3, 4, 5, 3, 4,
                5, 3, 4, 5, 0, 1, 2, 0, 1, 2, 0, 1, 2, 0, 1, 2, 0, 1, 2, 3, 4, 5, 3, 4, 5, 3, 4, 5,
                3, 4, 5, 3, 4, 5, 0, 1, 2, 0, 1, 2, 0, 1, 2, 0, 1, 2, 0, 1, 2, 3, 4, 5, 3, 4, 5, 3,
                4, 5, 3, 4, 5, 3, 4, 5,
            ],
        ),
        (&[1], &[0], &[]),
        (&[0], &[2, 0], &[]),
    ];
    for (shape, to, places) in table {
        repeats(
            &rt,
            &Chain::whole(&Shape::new(shape)),
            &Shape::new(to),
            places,
        );
    }
    Ok(())
}

// Views that are not whole: `numpy.arange(6).reshape(2, 3)[::-1, 1:2]`, `numpy.arange(10)[7:2:-4]`,
// and six elements as (2, 1, 3).
#[test]
fn repeated_after_steps(rt: HostRuntime) -> Result<(), Fail> {
    let column = Chain::whole(&Shape::new(&[2, 3])).apply_all(&[
        Step::Slice {
            axis: 0,
            start: 1,
            len: 2,
            step: -1,
        },
        Step::Slice {
            axis: 1,
            start: 1,
            len: 1,
            step: 1,
        },
    ]);
    repeats(&rt, &column, &Shape::new(&[2, 3]), &[4, 4, 4, 1, 1, 1]);
    let two = Chain::whole(&Shape::new(&[10])).apply(&Step::Slice {
        axis: 0,
        start: 7,
        len: 2,
        step: -4,
    });
    repeats(&rt, &two, &Shape::new(&[3, 2]), &[7, 3, 7, 3, 7, 3]);
    let rows = Chain::whole(&Shape::new(&[6])).apply(&Step::Delinearize {
        sizes: Shape::new(&[2, 1, 3]),
    });
    let places = [0, 1, 2, 0, 1, 2, 3, 4, 5, 3, 4, 5];
    repeats(&rt, &rows, &Shape::new(&[2, 2, 3]), &places);
    Ok(())
}

// What threads may hold.
fn crosses_threads<T: Send + Sync>() {}

#[test]
fn chains_cross_threads(_rt: HostRuntime) -> Result<(), Fail> {
    crosses_threads::<Chain>();
    crosses_threads::<Strides>();
    Ok(())
}
