/// What an expression gives at the typed tile that a tile of any type is. The expression is checked
/// and run for the type that the tile has, so a generic function in it has one instance a type.
#[macro_export]
macro_rules! each {
    ($any:expr, $tile:ident => $body:expr) => {
        match $any {
            $crate::AnyTile::Bool($tile) => $body,
            $crate::AnyTile::Int8($tile) => $body,
            $crate::AnyTile::Int16($tile) => $body,
            $crate::AnyTile::Int32($tile) => $body,
            $crate::AnyTile::Int64($tile) => $body,
            $crate::AnyTile::UInt8($tile) => $body,
            $crate::AnyTile::UInt16($tile) => $body,
            $crate::AnyTile::UInt32($tile) => $body,
            $crate::AnyTile::UInt64($tile) => $body,
        }
    };
}

/// A call of a generic function at the Rust type of an element type that is known only when the
/// program runs. The type takes the place of the `_`, which stands first.
#[macro_export]
macro_rules! by_type {
    ($dtype:expr, $function:ident::<_ $(, $parameter:ty)*>($($argument:expr),* $(,)?)) => {
        match $dtype {
            $crate::DType::Bool => $function::<bool $(, $parameter)*>($($argument),*),
            $crate::DType::Int8 => $function::<i8 $(, $parameter)*>($($argument),*),
            $crate::DType::Int16 => $function::<i16 $(, $parameter)*>($($argument),*),
            $crate::DType::Int32 => $function::<i32 $(, $parameter)*>($($argument),*),
            $crate::DType::Int64 => $function::<i64 $(, $parameter)*>($($argument),*),
            $crate::DType::UInt8 => $function::<u8 $(, $parameter)*>($($argument),*),
            $crate::DType::UInt16 => $function::<u16 $(, $parameter)*>($($argument),*),
            $crate::DType::UInt32 => $function::<u32 $(, $parameter)*>($($argument),*),
            $crate::DType::UInt64 => $function::<u64 $(, $parameter)*>($($argument),*),
        }
    };
}
