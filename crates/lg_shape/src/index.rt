/// One item of an index, as `a[item, item, ..]` (NumPy's reference, "Indexing on ndarrays").
#[derive(Clone, Copy, Debug, PartialEq, Eq)]
pub enum IndexItem {
    /// An integer: the axis is taken away, at this coordinate. Below 0 it counts from the end.
    At(i128),

    /// A slice `start:stop:step`: the axis stays, with the coordinates from `start` up to `stop`.
    Slice {
        start: Option<i128>,
        stop: Option<i128>,
        step: Option<i128>,
    },

    /// `None`: a new axis of extent 1.
    NewAxis,

    /// `...`: so many whole axes as the other items leave.
    Ellipsis,
}

/// Why an index picks no view. `item` is the place of the item among all items, from 0.
#[derive(Clone, Copy, Debug, PartialEq, Eq)]
pub enum IndexFault {
    /// There are two `...` or more.
    TwoEllipses,

    /// There are more integers and slices than axes.
    TooMany,

    /// An integer names no coordinate of its axis.
    OutOfRange { item: u32 },

    /// A slice has a step that is not 1.
    Step { item: u32 },

    /// The view would have more axes than a shape has.
    TooManyAxes,
}
