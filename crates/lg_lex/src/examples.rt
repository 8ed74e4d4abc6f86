//! Worked examples of the tokens of a line. Each clause is computed by the check, so a definition
//! that says something else is refused. The places are those of the text, counted from 0.

ghost use Rattle.std.specs.Prelude.{◌≡◌, [], ◌∷◌, codes};
ghost use Rattle.lg_lex.specs.Bytes.{without_return};
ghost use Rattle.lg_lex.specs.Line.{Reads, IsFault, token};
ghost use Rattle.lg_lex.specs.declared.tokens.TokenKind.TheVariants.{Word, Number, DoubleStarEqual, DoubleSlashEqual, LeftShiftEqual, RightShiftEqual, Ellipsis, DoubleStar, DoubleSlash, LeftShift, RightShift, LessEqual, GreaterEqual, EqualEqual, NotEqual, PlusEqual, MinusEqual, StarEqual, PercentEqual, AmpersandEqual, BarEqual, CircumflexEqual, Plus, Minus, Star, Percent, At, Ampersand, Bar, Circumflex, Tilde, Less, Greater, Equal, LeftParenthesis, RightParenthesis, LeftBracket, RightBracket, Comma, Colon, Dot};

/// Each operator, with blanks around it.
pub fn operators_by_example()
    ensures three_bytes { Reads (codes "**= //= <<= >>= ...")
        (token DoubleStarEqual 0 3 ∷ token DoubleSlashEqual 4 7 ∷ token LeftShiftEqual 8 11 ∷
        token RightShiftEqual 12 15 ∷ token Ellipsis 16 19 ∷ []) }
    ensures two_bytes { Reads (codes "** // << >> <= >= == != += -= *= %= &= |= ^=")
        (token DoubleStar 0 2 ∷ token DoubleSlash 3 5 ∷ token LeftShift 6 8 ∷
        token RightShift 9 11 ∷ token LessEqual 12 14 ∷ token GreaterEqual 15 17 ∷
        token EqualEqual 18 20 ∷ token NotEqual 21 23 ∷ token PlusEqual 24 26 ∷
        token MinusEqual 27 29 ∷ token StarEqual 30 32 ∷ token PercentEqual 33 35 ∷
        token AmpersandEqual 36 38 ∷ token BarEqual 39 41 ∷ token CircumflexEqual 42 44 ∷ []) }
    ensures one_byte { Reads (codes "+ - * % @ & | ^ ~ < > = ( ) [ ] , : .")
        (token Plus 0 1 ∷ token Minus 2 3 ∷ token Star 4 5 ∷ token Percent 6 7 ∷ token At 8 9 ∷
        token Ampersand 10 11 ∷ token Bar 12 13 ∷ token Circumflex 14 15 ∷ token Tilde 16 17 ∷
        token Less 18 19 ∷ token Greater 20 21 ∷ token Equal 22 23 ∷ token LeftParenthesis 24 25 ∷
        token RightParenthesis 26 27 ∷ token LeftBracket 28 29 ∷ token RightBracket 30 31 ∷
        token Comma 32 33 ∷ token Colon 34 35 ∷ token Dot 36 37 ∷ []) }
{}

/// Operators that stand together: the longest one is read at each place.
pub fn longest_by_example()
    ensures shift_assign { Reads (codes "a<<=b")
        (token Word 0 1 ∷ token LeftShiftEqual 1 4 ∷ token Word 4 5 ∷ []) }
    ensures power_assign { Reads (codes "a**=b")
        (token Word 0 1 ∷ token DoubleStarEqual 1 4 ∷ token Word 4 5 ∷ []) }
    ensures floor_divide_assign { Reads (codes "a//=b")
        (token Word 0 1 ∷ token DoubleSlashEqual 1 4 ∷ token Word 4 5 ∷ []) }
    ensures shift { Reads (codes "a<<b")
        (token Word 0 1 ∷ token LeftShift 1 3 ∷ token Word 3 4 ∷ []) }
    ensures apart { Reads (codes "a< <b")
        (token Word 0 1 ∷ token Less 1 2 ∷ token Less 3 4 ∷ token Word 4 5 ∷ []) }
    ensures ellipsis { Reads (codes "....") (token Ellipsis 0 3 ∷ token Dot 3 4 ∷ []) }
    ensures two_dots { Reads (codes "a..b")
        (token Word 0 1 ∷ token Dot 1 2 ∷ token Dot 2 3 ∷ token Word 3 4 ∷ []) }
    ensures equal { Reads (codes "a===b")
        (token Word 0 1 ∷ token EqualEqual 1 3 ∷ token Equal 3 4 ∷ token Word 4 5 ∷ []) }
    ensures not_equal { Reads (codes "a!==b")
        (token Word 0 1 ∷ token NotEqual 1 3 ∷ token Equal 3 4 ∷ token Word 4 5 ∷ []) }
    ensures powers { Reads (codes "a****b")
        (token Word 0 1 ∷ token DoubleStar 1 3 ∷ token DoubleStar 3 5 ∷ token Word 5 6 ∷ []) }
    ensures greater { Reads (codes "a>>>=b")
        (token Word 0 1 ∷ token RightShift 1 3 ∷ token GreaterEqual 3 5 ∷ token Word 5 6 ∷ []) }
    ensures sign { Reads (codes "a=-1")
        (token Word 0 1 ∷ token Equal 1 2 ∷ token Minus 2 3 ∷ token Number 3 4 ∷ []) }
    ensures index { Reads (codes "x[1:,::2]")
        (token Word 0 1 ∷ token LeftBracket 1 2 ∷ token Number 2 3 ∷ token Colon 3 4 ∷
        token Comma 4 5 ∷ token Colon 5 6 ∷ token Colon 6 7 ∷ token Number 7 8 ∷
        token RightBracket 8 9 ∷ []) }
{}

/// Words go on with digits and `_`, and numbers with digits alone.
pub fn words_by_example()
    ensures words { Reads (codes "a1 _b2 C__9 full int64")
        (token Word 0 2 ∷ token Word 3 6 ∷ token Word 7 11 ∷ token Word 12 16 ∷ token Word 17 22 ∷
        []) }
    ensures numbers { Reads (codes "0 7 10 9876543210")
        (token Number 0 1 ∷ token Number 2 3 ∷ token Number 4 6 ∷ token Number 7 17 ∷ []) }
    ensures greatest { Reads (codes "18446744073709551615") (token Number 0 20 ∷ []) }
    ensures mixed { Reads (codes "x1=2*y_")
        (token Word 0 2 ∷ token Equal 2 3 ∷ token Number 3 4 ∷ token Star 4 5 ∷ token Word 5 7 ∷
        []) }
    ensures dot { Reads (codes "1.5") (token Number 0 1 ∷ token Dot 1 2 ∷ token Number 2 3 ∷ []) }
{}

/// Spaces and tabs before, between and after tokens are skipped. The bytes are given by number: 9
/// is a tab, 32 a space, 61 `=`, and 97 and 98 are letters.
pub fn blanks_by_example()
    ensures nothing { Reads [] [] }
    ensures blanks { Reads (32 ∷ 9 ∷ 32 ∷ []) [] }
    ensures tabs { Reads (9 ∷ 97 ∷ 9 ∷ 61 ∷ 32 ∷ 9 ∷ 98 ∷ 32 ∷ [])
        (token Word 1 2 ∷ token Equal 3 4 ∷ token Word 6 7 ∷ []) }
    ensures indented { Reads (32 ∷ 32 ∷ 32 ∷ 32 ∷ 97 ∷ []) (token Word 4 5 ∷ []) }
{}

/// A comment begins with `#`, goes to the end of the line and may have any bytes. The bytes of the last
/// ones are given by number: 35 is `#`, 97 a letter, and 13, 195, 0, 36 and 9 begin no token.
pub fn comments_by_example()
    ensures alone { Reads (codes "# a") [] }
    ensures nothing_more { Reads (codes "#") [] }
    ensures behind_tokens { Reads (codes "x = 1 # c")
        (token Word 0 1 ∷ token Equal 2 3 ∷ token Number 4 5 ∷ []) }
    ensures at_once { Reads (codes "x=1#c")
        (token Word 0 1 ∷ token Equal 1 2 ∷ token Number 2 3 ∷ []) }
    ensures behind_blanks { Reads (codes "    # c") [] }
    ensures second { Reads (codes "a # b # c") (token Word 0 1 ∷ []) }
    ensures no_tokens { Reads (codes "a # 00 2x $ ! '") (token Word 0 1 ∷ []) }
    ensures any_bytes { Reads (97 ∷ 35 ∷ 195 ∷ 0 ∷ 13 ∷ 36 ∷ 9 ∷ []) (token Word 0 1 ∷ []) }
    ensures ends_with_return { Reads (35 ∷ 97 ∷ 13 ∷ []) [] }
{}

/// Only a byte 13 that is the last of a line is dropped, and only one.
pub fn returns_by_example()
    ensures last { without_return (97 ∷ 13 ∷ []) ≡ 97 ∷ [] }
    ensures alone { without_return (13 ∷ []) ≡ [] }
    ensures none { without_return (97 ∷ 98 ∷ []) ≡ 97 ∷ 98 ∷ [] }
    ensures nothing { without_return [] ≡ [] }
    ensures elsewhere { without_return (97 ∷ 13 ∷ 98 ∷ []) ≡ 97 ∷ 13 ∷ 98 ∷ [] }
    ensures two { without_return (97 ∷ 13 ∷ 13 ∷ []) ≡ 97 ∷ 13 ∷ [] }
    ensures blank_behind { without_return (13 ∷ 32 ∷ []) ≡ 13 ∷ 32 ∷ [] }
    ensures comment { without_return (35 ∷ 97 ∷ 13 ∷ []) ≡ 35 ∷ 97 ∷ [] }
{}

/// The place of the first byte that is no blank and begins no comment and no token, behind the tokens
/// before it.
pub fn faults_by_example()
    ensures in_the_middle { IsFault (codes "a + $b") 4 }
    ensures bang { IsFault (codes "a ! b") 2 }
    ensures slash { IsFault (codes "a / b") 2 }
    ensures after_operator { IsFault (codes "a==/b") 3 }
    ensures quote { IsFault (codes "'a'") 0 }
    ensures zero_in_front { IsFault (codes "a = 007") 4 }
    ensures two_zeros { IsFault (codes "00") 0 }
    ensures too_great { IsFault (codes "1 18446744073709551616") 2 }
    ensures letter { IsFault (codes "x = 2y") 4 }
    ensures underscore { IsFault (codes "3_") 0 }
    ensures first_of_two { IsFault (codes "a $ b ?") 2 }
    ensures carriage_return { IsFault (97 ∷ 13 ∷ []) 1 }
    ensures inner_return { IsFault (97 ∷ 13 ∷ 32 ∷ 98 ∷ []) 1 }
    ensures second_return { IsFault (97 ∷ 13 ∷ 13 ∷ []) 1 }
    ensures before_comment { IsFault (codes "a $ # c") 2 }
    ensures no_ascii { IsFault (97 ∷ 61 ∷ 195 ∷ 164 ∷ []) 2 }
    ensures zero_byte { IsFault (0 ∷ []) 0 }
{}
