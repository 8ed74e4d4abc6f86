ghost use Rattle.std.proofs.Common.{ap};
ghost use Rattle.std.specs.Prelude.{pos, unsigned_abs};
ghost use Rattle.std.specs.Int.{from_bool};
ghost use Rattle.lg_elem.specs.Elements.{truth_distinct};
ghost use Rattle.lg_elem.specs.declared.dtype.DType.TheVariants.{Bool as Truth, Int8, Int16, Int32, Int64, UInt8, UInt16, UInt32, UInt64};

use crate::wrapping::{wrapped_signed, wrapped_unsigned};
use crate::{DType, Elem};

impl Elem for bool {
    ghost DTYPE = { Truth };

    ghost number = { λ b. pos (from_bool b) };

    ghost distinct = { truth_distinct };

    const DTYPE: DType = DType::Bool;

    #[inline]
    fn value(self) -> i128 {
        i128::from(self)
    }

    #[inline]
    fn wrap(x: i128) -> Self {
        x != 0
    }
}

impl Elem for i8 {
    ghost DTYPE = { Int8 };

    ghost number = { λ x. x };

    ghost distinct = { λ x y same. same };

    const DTYPE: DType = DType::Int8;

    #[inline]
    fn value(self) -> i128 {
        i128::from(self)
    }

    #[inline]
    fn wrap(x: i128) -> Self {
        wrapped_signed(x, 8) as i8
    }
}

impl Elem for i16 {
    ghost DTYPE = { Int16 };

    ghost number = { λ x. x };

    ghost distinct = { λ x y same. same };

    const DTYPE: DType = DType::Int16;

    #[inline]
    fn value(self) -> i128 {
        i128::from(self)
    }

    #[inline]
    fn wrap(x: i128) -> Self {
        wrapped_signed(x, 16) as i16
    }
}

impl Elem for i32 {
    ghost DTYPE = { Int32 };

    ghost number = { λ x. x };

    ghost distinct = { λ x y same. same };

    const DTYPE: DType = DType::Int32;

    #[inline]
    fn value(self) -> i128 {
        i128::from(self)
    }

    #[inline]
    fn wrap(x: i128) -> Self {
        wrapped_signed(x, 32) as i32
    }
}

impl Elem for i64 {
    ghost DTYPE = { Int64 };

    ghost number = { λ x. x };

    ghost distinct = { λ x y same. same };

    const DTYPE: DType = DType::Int64;

    #[inline]
    fn value(self) -> i128 {
        i128::from(self)
    }

    #[inline]
    fn wrap(x: i128) -> Self {
        wrapped_signed(x, 64) as i64
    }
}

impl Elem for u8 {
    ghost DTYPE = { UInt8 };

    ghost number = { λ x. pos x };

    ghost distinct = { λ x y same. ap unsigned_abs same };

    const DTYPE: DType = DType::UInt8;

    #[inline]
    fn value(self) -> i128 {
        i128::from(self)
    }

    #[inline]
    fn wrap(x: i128) -> Self {
        wrapped_unsigned(x, 8) as u8
    }
}

impl Elem for u16 {
    ghost DTYPE = { UInt16 };

    ghost number = { λ x. pos x };

    ghost distinct = { λ x y same. ap unsigned_abs same };

    const DTYPE: DType = DType::UInt16;

    #[inline]
    fn value(self) -> i128 {
        i128::from(self)
    }

    #[inline]
    fn wrap(x: i128) -> Self {
        wrapped_unsigned(x, 16) as u16
    }
}

impl Elem for u32 {
    ghost DTYPE = { UInt32 };

    ghost number = { λ x. pos x };

    ghost distinct = { λ x y same. ap unsigned_abs same };

    const DTYPE: DType = DType::UInt32;

    #[inline]
    fn value(self) -> i128 {
        i128::from(self)
    }

    #[inline]
    fn wrap(x: i128) -> Self {
        wrapped_unsigned(x, 32) as u32
    }
}

impl Elem for u64 {
    ghost DTYPE = { UInt64 };

    ghost number = { λ x. pos x };

    ghost distinct = { λ x y same. ap unsigned_abs same };

    const DTYPE: DType = DType::UInt64;

    #[inline]
    fn value(self) -> i128 {
        i128::from(self)
    }

    #[inline]
    fn wrap(x: i128) -> Self {
        wrapped_unsigned(x, 64) as u64
    }
}
