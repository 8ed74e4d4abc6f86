ghost use Rattle.std.specs.Prelude.{◌≡◌, ◌<◌, ◌≤◌};
ghost use Rattle.lg_elem.specs.Types.{bits};

/// The type of an array's elements, as in NumPy's reference, "Data types": truth values, and
/// integers by width and sign.
#[derive(Clone, Copy, Debug, PartialEq, Eq)]
pub enum DType {
    Bool,
    Int8,
    Int16,
    Int32,
    Int64,
    UInt8,
    UInt16,
    UInt32,
    UInt64,
}

impl DType {
    // How many bits a number of the type has.
    #[inline]
    pub(crate) fn bits(self) -> u32
        ensures value { result ≡ bits self }
        ensures some { 0 < result }
        ensures most { result ≤ 64 }
    {
        match self {
            DType::Bool => 1,
            DType::Int8 | DType::UInt8 => 8,
            DType::Int16 | DType::UInt16 => 16,
            DType::Int32 | DType::UInt32 => 32,
            DType::Int64 | DType::UInt64 => 64,
        }
    }
}
