//! The methods whose words are no reserved words.

ghost use Rattle.std.specs.Prelude.{◌≡◌};
ghost use Rattle.lg_parse.specs.Methods as spec;

use crate::keywords::same_bytes;

/// A method whose word is no reserved word.
#[derive(Clone, Copy, Debug)]
pub enum Method {
    /// `T`
    Turned,
    /// `copy`
    Copy,
    /// `flatten`
    Flatten,
    /// `astype`
    AsType,
    /// `reshape`
    Reshape,
}

/// Which method a word is.
#[tactic(auto, unfolding(crate::specs::Methods::method_of))]
pub fn method_of(word: &[u8]) -> Option<Method>
    ensures { result ≡ spec.method_of word.now }
{
    if same_bytes(word, b"T") {
        return Some(Method::Turned);
    }
    if same_bytes(word, b"copy") {
        return Some(Method::Copy);
    }
    if same_bytes(word, b"flatten") {
        return Some(Method::Flatten);
    }
    if same_bytes(word, b"astype") {
        return Some(Method::AsType);
    }
    if same_bytes(word, b"reshape") {
        return Some(Method::Reshape);
    }
    None
}
