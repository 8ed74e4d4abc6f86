//! The table of reserved words.

ghost use Rattle.std.specs.Prelude.{◌≡◌, map, bytes_eq};
ghost use Rattle.lg_parse.specs.Keywords.{entry, keyword_of, found_in, python_words, language_words, function_words};

use crate::words::{Function, Keyword, Word};
use lg_elem::DType;
use lg_tree::{Red, ScanCall};

/// The keywords of Python.
const PYTHON_WORDS: [(&[u8], Keyword); 35] = [
    (b"False", Keyword::Itself(Word::False)),
    (b"None", Keyword::Itself(Word::NewAxis)),
    (b"True", Keyword::Itself(Word::True)),
    (b"and", Keyword::Itself(Word::Unused)),
    (b"as", Keyword::Itself(Word::Unused)),
    (b"assert", Keyword::Itself(Word::Unused)),
    (b"async", Keyword::Itself(Word::Unused)),
    (b"await", Keyword::Itself(Word::Unused)),
    (b"break", Keyword::Itself(Word::Unused)),
    (b"class", Keyword::Itself(Word::Unused)),
    (b"continue", Keyword::Itself(Word::Unused)),
    (b"def", Keyword::Itself(Word::Unused)),
    (b"del", Keyword::Itself(Word::Unused)),
    (b"elif", Keyword::Itself(Word::Unused)),
    (b"else", Keyword::Itself(Word::Unused)),
    (b"except", Keyword::Itself(Word::Unused)),
    (b"finally", Keyword::Itself(Word::Unused)),
    (b"for", Keyword::Itself(Word::For)),
    (b"from", Keyword::Itself(Word::Unused)),
    (b"global", Keyword::Itself(Word::Unused)),
    (b"if", Keyword::Itself(Word::Unused)),
    (b"import", Keyword::Itself(Word::Unused)),
    (b"in", Keyword::Itself(Word::In)),
    (b"is", Keyword::Itself(Word::Unused)),
    (b"lambda", Keyword::Itself(Word::Unused)),
    (b"nonlocal", Keyword::Itself(Word::Unused)),
    (b"not", Keyword::Itself(Word::Unused)),
    (b"or", Keyword::Itself(Word::Unused)),
    (b"pass", Keyword::Itself(Word::Unused)),
    (b"raise", Keyword::Itself(Word::Unused)),
    (b"return", Keyword::Itself(Word::Unused)),
    (b"try", Keyword::Itself(Word::Unused)),
    (b"while", Keyword::Itself(Word::Unused)),
    (b"with", Keyword::Itself(Word::Unused)),
    (b"yield", Keyword::Itself(Word::Unused)),
];

/// The words of statements and arguments, and the types.
const LANGUAGE_WORDS: [(&[u8], Keyword); 15] = [
    (b"range", Keyword::Itself(Word::Range)),
    (b"print", Keyword::Itself(Word::Print)),
    (b"axis", Keyword::Itself(Word::Axis)),
    (b"dtype", Keyword::Itself(Word::Dtype)),
    (b"load", Keyword::Itself(Word::Load)),
    (b"save", Keyword::Itself(Word::Save)),
    (b"bool", Keyword::Element(DType::Bool)),
    (b"int8", Keyword::Element(DType::Int8)),
    (b"int16", Keyword::Element(DType::Int16)),
    (b"int32", Keyword::Element(DType::Int32)),
    (b"int64", Keyword::Element(DType::Int64)),
    (b"uint8", Keyword::Element(DType::UInt8)),
    (b"uint16", Keyword::Element(DType::UInt16)),
    (b"uint32", Keyword::Element(DType::UInt32)),
    (b"uint64", Keyword::Element(DType::UInt64)),
];

/// The functions.
const FUNCTION_WORDS: [(&[u8], Keyword); 24] = [
    (b"full", Keyword::Call(Function::Full)),
    (b"zeros", Keyword::Call(Function::Zeros)),
    (b"ones", Keyword::Call(Function::Ones)),
    (b"arange", Keyword::Call(Function::Arange)),
    (b"array", Keyword::Call(Function::Array)),
    (b"abs", Keyword::Call(Function::Abs)),
    (b"minimum", Keyword::Call(Function::Minimum)),
    (b"maximum", Keyword::Call(Function::Maximum)),
    (b"where", Keyword::Call(Function::Where)),
    (b"sum", Keyword::Call(Function::Reduce(Red::Sum))),
    (b"prod", Keyword::Call(Function::Reduce(Red::Prod))),
    (b"min", Keyword::Call(Function::Reduce(Red::Min))),
    (b"max", Keyword::Call(Function::Reduce(Red::Max))),
    (b"any", Keyword::Call(Function::Reduce(Red::Any))),
    (b"all", Keyword::Call(Function::Reduce(Red::All))),
    (b"take", Keyword::Call(Function::Take)),
    (b"transpose", Keyword::Call(Function::Transpose)),
    (b"broadcast_to", Keyword::Call(Function::BroadcastTo)),
    (b"stencil", Keyword::Call(Function::Stencil)),
    (b"apply", Keyword::Call(Function::Apply)),
    (b"cumsum", Keyword::Call(Function::Scan(ScanCall::CumSum))),
    (b"cumprod", Keyword::Call(Function::Scan(ScanCall::CumProd))),
    (b"argmin", Keyword::Call(Function::Scan(ScanCall::ArgMin))),
    (b"argmax", Keyword::Call(Function::Scan(ScanCall::ArgMax))),
];

/// What a word is, if it is reserved.
#[tactic(auto, unfolding(crate::specs::Keywords::keyword_of))]
pub fn reserved_word(word: &[u8]) -> Option<Keyword>
    ensures { result ≡ keyword_of word.now }
{
    match python_word(word) {
        Some(found) => Some(found),
        None => match language_word(word) {
            Some(found) => Some(found),
            None => function_word(word),
        },
    }
}

fn python_word(word: &[u8]) -> Option<Keyword>
    ensures { result ≡ found_in word.now python_words }
{
    let words: [(&[u8], Keyword); 35] = PYTHON_WORDS;
    found_in(words.as_slice(), word)
}

fn language_word(word: &[u8]) -> Option<Keyword>
    ensures { result ≡ found_in word.now language_words }
{
    let words: [(&[u8], Keyword); 15] = LANGUAGE_WORDS;
    found_in(words.as_slice(), word)
}

fn function_word(word: &[u8]) -> Option<Keyword>
    ensures { result ≡ found_in word.now function_words }
{
    let words: [(&[u8], Keyword); 24] = FUNCTION_WORDS;
    found_in(words.as_slice(), word)
}

/// What stands beside the word in these entries.
fn found_in(entries: &[(&[u8], Keyword)], word: &[u8]) -> Option<Keyword>
    ensures { result ≡ found_in word.now (map (λ p. entry p.0.now p.1) entries.now) }
{
    for row in entries {
        if same_bytes(word, row.0) {
            return Some(row.1);
        }
    }
    None
}

pub fn same_bytes(word: &[u8], other: &[u8]) -> bool
    ensures { result ≡ bytes_eq word.now other.now }
{
    word == other
}
