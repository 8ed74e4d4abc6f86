use crate::{Right, Stores, View, reachable};
use lg_elem::DType;
use lg_shape::Shape;
use lg_xform::Chain;
use std::test::Fail;

fn view(root: u64) -> View {
    View {
        root,
        dtype: DType::Int64,
        chain: Chain::whole(&Shape::new(&[2])),
        right: Right::ReadOnly,
    }
}

#[test]
fn roots_by_number(rt: HostRuntime) -> Result<(), Fail> {
    let mut stores = Stores::new(rt.alloc());
    assert_eq!(rt; stores.add(DType::Bool, &Shape::new(&[2, 3]))?, 0);
    assert_eq!(rt; stores.add(DType::Int8, &Shape::new(&[]))?, 1);
    assert_eq!(rt; stores.count(), 2);
    assert!(rt; stores.dtype(1) == DType::Int8 && stores.shape(0) == Shape::new(&[2, 3]));
    stores.cut(1);
    assert_eq!(rt; stores.count(), 1);
    Ok(())
}

#[test]
fn roots_of_views(rt: HostRuntime) -> Result<(), Fail> {
    let roots = reachable(rt.alloc(), &[view(5), view(2), view(5), view(0)])?;
    assert_eq!(rt; roots.as_slice(), [0, 2, 5].as_slice());
    assert_eq!(rt; reachable(rt.alloc(), &[])?.len(), 0);
    Ok(())
}

// What threads may hold.
fn crosses_threads<T: Send + Sync>() {}

#[test]
fn stores_and_views_cross_threads(_rt: HostRuntime) -> Result<(), Fail> {
    crosses_threads::<Stores>();
    crosses_threads::<View>();
    crosses_threads::<Right>();
    Ok(())
}
