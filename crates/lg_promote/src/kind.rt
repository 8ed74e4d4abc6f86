ghost use Rattle.std.specs.Prelude.{◌≡◌, ◌≤◌};
ghost use Rattle.lg_promote.specs.Kinds.{kind_of, bits_of};

use lg_elem::DType;

/// A type by what it is: truth values, or numbers of so many bits without or with a sign.
#[derive(Clone, Copy, Debug, PartialEq, Eq)]
pub enum Kind {
    Truth,
    Unsigned(u32),
    Signed(u32),
}

impl Kind {
    /// The kind of a type.
    pub fn of(t: DType) -> Kind
        ensures kind { result ≡ kind_of t }
        ensures few { bits_of result ≤ 64 }
    {
        match t {
            DType::Bool => Kind::Truth,
            DType::Int8 => Kind::Signed(8),
            DType::Int16 => Kind::Signed(16),
            DType::Int32 => Kind::Signed(32),
            DType::Int64 => Kind::Signed(64),
            DType::UInt8 => Kind::Unsigned(8),
            DType::UInt16 => Kind::Unsigned(16),
            DType::UInt32 => Kind::Unsigned(32),
            DType::UInt64 => Kind::Unsigned(64),
        }
    }
}
