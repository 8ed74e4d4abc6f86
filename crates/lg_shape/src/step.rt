use crate::shape::Shape;

/// One step from a view of a root to another view of it. Each axis, index and range lies in the
/// shape of the view that the step is taken from. The steps bear the names of Legate's store
/// transformations; their rules are this project's own.
#[derive(Clone, Copy, Debug, PartialEq, Eq)]
pub enum Step {
    /// A new axis at this place, on which nothing depends.
    Promote {
        axis: u8,
        extent: u64,
    },

    /// The axis is taken away, at this index of it.
    Project {
        axis: u8,
        index: u64,
    },

    /// So many indices of the axis: index `k` is `start + k * step`.
    Slice {
        axis: u8,
        start: u64,
        len: u64,
        step: i64,
    },

    /// Axis `j` of the new view is axis `axes[j]`, for each axis of the shape; the entries behind
    /// them say nothing.
    Transpose {
        axes: [u8; 4],
    },

    /// The one axis is split into axes of these extents, in row-major order.
    Delinearize {
        sizes: Shape,
    },
}
