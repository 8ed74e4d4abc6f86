ghost use Rattle.std.specs.Prelude.{◌<◌, length};

use crate::{IndexFault, IndexItem, Mismatch, Shape, Step, apply_index, broadcast};
use lg_space::AnyRect;
use std::alloc::Global;
use std::process::Abort;
use std::test::Fail;

// A shape without axes has one index, one with an extent of 0 has none, and an axis of extent 1 is
// an axis.
#[test]
fn wholes(rt: HostRuntime) -> Result<(), Fail> {
    assert!(rt; Shape::new(&[]).whole() == AnyRect::new(&[]));
    assert!(rt; Shape::new(&[2, 3]).whole() == AnyRect::new(&[(0, 2), (0, 3)]));
    assert_eq!(rt; Shape::new(&[0, 5]).whole().volume(), 0);
    Ok(())
}

#[test]
fn extents(rt: HostRuntime) -> Result<(), Fail> {
    assert_eq!(rt; Shape::new(&[4, 1, 7]).extents(), &[4, 1, 7][..]);
    assert!(rt; Shape::new(&[4]) != Shape::new(&[4, 1]) && Shape::new(&[4]) == Shape::new(&[4]));
    Ok(())
}

// The expected shapes and axes are worked out by hand from the rule.
#[test]
fn broadcasts(rt: HostRuntime) -> Result<(), Fail> {
    let tall = Shape::new(&[2, 1, 3]);
    assert!(rt; broadcast(&tall, &Shape::new(&[4, 1])) == Ok(Shape::new(&[2, 4, 3])));
    assert!(rt; broadcast(&Shape::new(&[]), &tall) == Ok(tall));
    assert!(rt; broadcast(&Shape::new(&[1]), &Shape::new(&[0])) == Ok(Shape::new(&[0])));
    let (two, four) = (Shape::new(&[2, 3]), Shape::new(&[4, 3]));
    assert!(rt; broadcast(&two, &four) == Err(Mismatch { axis: 1 }));
    assert!(rt; broadcast(&two, &Shape::new(&[4, 5])) == Err(Mismatch { axis: 0 }));
    Ok(())
}

fn slice(start: Option<i128>, stop: Option<i128>) -> IndexItem {
    IndexItem::Slice {
        start,
        stop,
        step: None,
    }
}

fn kept(axis: u8, start: u64, len: u64) -> Step {
    Step::Slice {
        axis,
        start,
        len,
        step: 1,
    }
}

// The index leads over these steps, which are worked out by hand from the rule.
fn leads(rt: &impl Abort, alloc: Global, shape: &Shape, items: &[IndexItem], steps: &[Step])
    requires { length items.now < 9 }
{
    match apply_index(alloc, shape, items) {
        Ok(taken) => assert!(rt; taken.as_slice() == steps),
        Err(fault) => panic!(rt; "{fault:?}"),
    }
}

fn fails(rt: &impl Abort, alloc: Global, shape: &Shape, items: &[IndexItem], fault: IndexFault)
    requires { length items.now < 9 }
{
    assert!(rt; apply_index(alloc, shape, items).err() == Some(fault));
}

// The expected ranges are what NumPy keeps of `arange(4)`.
#[test]
fn slices(rt: HostRuntime) -> Result<(), Fail> {
    let shape = Shape::new(&[4]);
    for (start, stop, from, len) in [
        (None, None, 0, 4),
        (Some(1), Some(3), 1, 2),
        (Some(-2), None, 2, 2),
        (None, Some(-1), 0, 3),
        (Some(5), None, 4, 0),
        (Some(10), Some(-10), 4, 0),
        (Some(3), Some(1), 3, 0),
        (Some(-(1 << 100)), Some(1 << 100), 0, 4),
        (Some(1 << 100), Some(-(1 << 100)), 4, 0),
    ] {
        leads(
            &rt,
            rt.alloc(),
            &shape,
            &[slice(start, stop)],
            &[kept(0, from, len)],
        );
    }
    Ok(())
}

#[test]
fn integers(rt: HostRuntime) -> Result<(), Fail> {
    let shape = Shape::new(&[3]);
    for (at, index) in [(0, 0), (2, 2), (-1, 2), (-3, 0)] {
        let steps = [Step::Project { axis: 0, index }];
        leads(&rt, rt.alloc(), &shape, &[IndexItem::At(at)], &steps);
    }
    for at in [3, -4, 1 << 100, -(1 << 100)] {
        let fault = IndexFault::OutOfRange { item: 0 };
        fails(&rt, rt.alloc(), &shape, &[IndexItem::At(at)], fault);
    }
    Ok(())
}

#[test]
fn several_axes(rt: HostRuntime) -> Result<(), Fail> {
    let alloc = rt.alloc();
    let square = Shape::new(&[4, 4]);
    let part = [slice(Some(1), Some(3)), slice(Some(0), Some(2))];
    leads(&rt, alloc, &square, &part, &[kept(0, 1, 2), kept(1, 0, 2)]);
    let last = [IndexItem::Ellipsis, IndexItem::At(1)];
    leads(
        &rt,
        alloc,
        &square,
        &last,
        &[Step::Project { axis: 1, index: 1 }],
    );
    let first = [Step::Project { axis: 0, index: 0 }];
    leads(&rt, alloc, &square, &[IndexItem::At(0)], &first);
    let row = [IndexItem::At(-1), slice(None, Some(2))];
    leads(
        &rt,
        alloc,
        &square,
        &row,
        &[Step::Project { axis: 0, index: 3 }, kept(0, 0, 2)],
    );
    Ok(())
}

#[test]
fn new_axes(rt: HostRuntime) -> Result<(), Fail> {
    let alloc = rt.alloc();
    let (none, four) = (Shape::new(&[]), Shape::new(&[2, 2, 2, 2]));
    leads(&rt, alloc, &none, &[IndexItem::Ellipsis], &[]);
    let added = [Step::Promote { axis: 0, extent: 1 }];
    leads(&rt, alloc, &none, &[IndexItem::NewAxis], &added);
    fails(
        &rt,
        alloc,
        &four,
        &[IndexItem::NewAxis],
        IndexFault::TooManyAxes,
    );
    let swapped = [
        Step::Project { axis: 0, index: 0 },
        Step::Promote { axis: 0, extent: 1 },
    ];
    leads(
        &rt,
        alloc,
        &four,
        &[IndexItem::NewAxis, IndexItem::At(0)],
        &swapped,
    );
    let behind = [IndexItem::At(1), IndexItem::Ellipsis, IndexItem::NewAxis];
    let steps = [
        Step::Project { axis: 0, index: 1 },
        Step::Promote { axis: 3, extent: 1 },
    ];
    leads(&rt, alloc, &four, &behind, &steps);
    Ok(())
}

// Which of several faults is told.
#[test]
fn faults(rt: HostRuntime) -> Result<(), Fail> {
    let alloc = rt.alloc();
    let shape = Shape::new(&[3]);
    let step = IndexItem::Slice {
        start: None,
        stop: None,
        step: Some(2),
    };
    let (zero, far) = (IndexItem::At(0), IndexItem::At(7));
    fails(&rt, alloc, &shape, &[zero, far], IndexFault::TooMany);
    fails(&rt, alloc, &shape, &[step], IndexFault::Step { item: 0 });
    let twice = [IndexItem::Ellipsis, zero, zero, IndexItem::Ellipsis];
    fails(&rt, alloc, &shape, &twice, IndexFault::TwoEllipses);
    let pair = Shape::new(&[3, 3]);
    let second = [IndexItem::NewAxis, far, step];
    fails(
        &rt,
        alloc,
        &pair,
        &second,
        IndexFault::OutOfRange { item: 1 },
    );
    let many = [
        IndexItem::NewAxis,
        IndexItem::NewAxis,
        IndexItem::NewAxis,
        step,
        zero,
    ];
    fails(&rt, alloc, &pair, &many, IndexFault::Step { item: 3 });
    Ok(())
}

// What threads may hold.
fn crosses_threads<T: Send + Sync>() {}

#[test]
fn shapes_cross_threads(_rt: HostRuntime) -> Result<(), Fail> {
    crosses_threads::<Shape>();
    crosses_threads::<Step>();
    crosses_threads::<IndexItem>();
    crosses_threads::<IndexFault>();
    crosses_threads::<Mismatch>();
    Ok(())
}
