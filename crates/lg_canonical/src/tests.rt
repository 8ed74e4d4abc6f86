//! Scripts with their canonical texts, and scripts with their first bad lines.
use crate::laws::{expressions_read_back, heads_read_back, scripts_read_back};
use lg_grammar::{ScriptEnd, read_script};
use lg_text::text_of;
use std::alloc::{AllocError, Global};
use std::process::Abort;
use std::test::Fail;

// In the tables each row is a script, `$`, and its canonical text, or `!` with the number of its
// first bad line. A `;` stands for the end of a line.

// The words that are no names.
const RESERVED: &[u8] =
    b"False None True and as assert async await break class continue def del elif else except
finally for from global if import in is lambda nonlocal not or pass raise return try while
with yield range print axis dtype bool int8 int16 int32 int64 uint8 uint16 uint32 uint64
full zeros ones arange array abs minimum maximum where sum prod min max any all take
transpose broadcast_to stencil load save cumsum cumprod argmin argmax apply";

// Tokens, blanks, comments, ends of lines, and reserved words.
const TOKENS: &[u8] = b"$
# only$
  # only$
;;a=1;$a = 1;
a=1$a = 1;
_a1=1$_a1 = 1;
A=Z9_$A = Z9_;
1a=1$!1
a=1b$!1
a=1_$!1
a=0$a = 0;
a=00$!1
a=01$!1
a=10$a = 10;
a=18446744073709551615$a = 18446744073709551615;
a=18446744073709551616$!1
a=99999999999999999999$!1
a = b\t+\tc $a = b + c;
a = b+c # d$a = b + c;
a=1#$a = 1;
 a=1$!1
\ta=1$!1
a=1\r;b=2\r$a = 1;b = 2;
a=1\r\r$!1
a=1#\r\r$a = 1;
a=\r1$!1
a=1?$!1
a=!b$!1
a='b'$!1
a=1.5$!1
a=b.5$!1
a=b c$!1
a=b< <c$!1
a+ =b$!1
a* *=b$!1
a@=b$!1
a=b[. . .]$!1
a=b[..]$!1
for=1$!1
None=1$!1
True=1$!1
lambda=1$!1
yield=1$!1
range=1$!1
print=1$!1
axis=1$!1
dtype=1$!1
load=1$!1
int8=1$!1
uint64=1$!1
bool=1$!1
sum=1$!1
transpose=1$!1
argmax=1$!1
apply=1$!1
Sum=1$Sum = 1;
copy=T$copy = T;
reshape=astype$reshape = astype;
loads=savex$loads = savex;
dot=int4$dot = int4;
";

// Which operator binds more tightly, and from which side those of one level group.
const OPERATORS: &[u8] = b"a=b+c+d$a = (b + c) + d;
a=b+(c+d)$a = b + (c + d);
a=b-c*d$a = b - (c * d);
a=b*c-d$a = (b * c) - d;
a=b@c*d$a = (b @ c) * d;
a=b@(c@d)$a = b @ (c @ d);
a=b//c%d$a = (b // c) % d;
a=b<<c+d$a = b << (c + d);
a=b>>c<<d$a = (b >> c) << d;
a=b&c<<d$a = b & (c << d);
a=b&c&d$a = (b & c) & d;
a=b^c&d$a = b ^ (c & d);
a=b^c^d$a = (b ^ c) ^ d;
a=b|c^d$a = b | (c ^ d);
a=b|c|d$a = (b | c) | d;
a=b<c|d$a = b < (c | d);
a=b==c$a = b == c;
a=b!=c$a = b != c;
a=b<=c$a = b <= c;
a=b>c$a = b > c;
a=b>=c$a = b >= c;
a=b<c<d$!1
a=b==c!=d$!1
a=(b<c)<d$a = (b < c) < d;
a=b<(c<d)$a = b < (c < d);
a=-b$a = -b;
a=- - b$a = -(-b);
a=~b$a = ~b;
a=~-b$a = ~(-b);
a=-~b$a = -(~b);
a=-2**2$a = -(2 ** 2);
a=(-2)**2$a = (-2) ** 2;
a=b**-c$a = b ** (-c);
a=b**c**d$a = b ** (c ** d);
a=(b**c)**d$a = (b ** c) ** d;
a=b**c*d$a = (b ** c) * d;
a=-b*c$a = (-b) * c;
a=b--c$a = b - (-c);
a=-abs(b)$a = -abs(b);
a=~(b<c)$a = ~(b < c);
a=((b))$a = b;
a=(3)$a = 3;
a=(3,)$!1
a=()$!1
a=(b$!1
a=b)$!1
a=+b$!1
a=b+$!1
a=*b$!1
a=b not c$!1
a=None$!1
a=True+False$a = True + False;
";

// Each call, with too few and too many arguments.
const CALLS: &[u8] = b"a=full(3,7)$a = full(3, 7);
a=full((3),7)$a = full(3, 7);
a=full((3,),7)$a = full((3,), 7);
a=full((),7)$a = full((), 7);
a=full((3,4,),7,int8)$a = full((3, 4), 7, int8);
a=full((3,4),-7,dtype=int8)$a = full((3, 4), -7, int8);
a=full((3+4)*2,7)$a = full((3 + 4) * 2, 7);
a=full(3,7,)$!1
a=full(3)$!1
a=full(3,7,dtype int8)$!1
a=full(3,7,b)$!1
a=full(3,7,int8,int8)$!1
a=full(,7)$!1
a=full((,),7)$!1
a=full((3,,4),7)$!1
a=full[3,7]$!1
a=zeros(3)$a = zeros(3);
a=zeros((2,3),bool)$a = zeros((2, 3), bool);
a=zeros()$!1
a=zeros(3,int8,)$!1
a=zeros(2,3)$!1
a=ones((2,3),dtype=uint64)$a = ones((2, 3), uint64);
a=arange(3)$a = arange(3);
a=arange(1,3)$a = arange(1, 3);
a=arange(3,int8)$a = arange(3, int8);
a=arange(1,3,dtype=int16)$a = arange(1, 3, int16);
a=arange(1,2,3)$!1
a=array([])$a = array([]);
a=array([1,2,])$a = array([1, 2]);
a=array([[1,2],[3,4],],int8)$a = array([[1, 2], [3, 4]], int8);
a=array([1,[2]])$a = array([1, [2]]);
a=array([b+c,-1])$a = array([b + c, -1]);
a=array(1)$!1
a=array([,])$!1
a=array([1 2])$!1
a=abs(b)$a = abs(b);
a=abs(b,c)$!1
a=abs(b,)$!1
a=abs()$!1
a=abs$!1
a=minimum(b,c)$a = minimum(b, c);
a=minimum(b)$!1
a=maximum(b,c)$a = maximum(b, c);
a=maximum(b,c,)$!1
a=where(b<c,-b,c)$a = where(b < c, -b, c);
a=where(b,c)$!1
a=sum(b)$a = sum(b);
a=sum(b,0)$a = sum(b, axis=0);
a=prod(b,axis=-1)$a = prod(b, axis=-1);
a=min(b,axis=c+1)$a = min(b, axis=c + 1);
a=max(b,1)$a = max(b, axis=1);
a=any(b)$a = any(b);
a=all(b,axis=0)$a = all(b, axis=0);
a=sum(b,axis 0)$!1
a=sum(b,axis=)$!1
a=sum(b,int8)$!1
a=sum(axis=0)$!1
a=sum(b,0,)$!1
a=take(b,c)$a = take(b, c);
a=take(b,c,1)$a = take(b, c, axis=1);
a=take(b,c,axis=1)$a = take(b, c, axis=1);
a=take(b)$!1
a=transpose(b)$a = transpose(b);
a=transpose(b,0)$a = transpose(b, 0);
a=transpose(b,(1,0))$a = transpose(b, (1, 0));
a=transpose(b,1,0)$!1
a=broadcast_to(b,(2,3))$a = broadcast_to(b, (2, 3));
a=broadcast_to(b)$!1
a=stencil(b,[1,-2,1])$a = stencil(b, [1, -2, 1]);
a=stencil(b,c)$!1
a=apply(mix,b,c)$a = apply(mix, b, c);
a=apply(1,b,c)$!1
a=apply(sum,b,c)$!1
a=apply(mix,b)$!1
a=cumsum(b)$a = cumsum(b);
a=cumprod(b,axis=0)$a = cumprod(b, axis=0);
a=argmin(b,0)$a = argmin(b, axis=0);
a=argmax(b)$a = argmax(b);
";

// Indices and methods.
const SUFFIXES: &[u8] = b"a=b[0]$a = b[0];
a=b[-1]$a = b[-1];
a=b [ 0 ]$a = b[0];
a=b[0,1,]$a = b[0, 1];
a=b[]$!1
a=b[,]$!1
a=b[0,,1]$!1
a=b[0 1]$!1
a=b[0$!1
a=b[0)$!1
a=b[:]$a = b[:];
a=b[::]$a = b[:];
a=b[:::]$!1
a=b[1:]$a = b[1:];
a=b[:2]$a = b[:2];
a=b[1:2]$a = b[1:2];
a=b[1:2:]$a = b[1:2];
a=b[::2]$a = b[::2];
a=b[1::2]$a = b[1::2];
a=b[:2:3]$a = b[:2:3];
a=b[1:2:-1]$a = b[1:2:-1];
a=b[i+1:,:2]$a = b[i + 1:, :2];
a=b[None]$a = b[None];
a=b[None:]$!1
a=b[...,0]$a = b[..., 0];
a=b[None,...,:,1]$a = b[None, ..., :, 1];
a=b[0][1]$a = b[0][1];
a=b[c[0]]$a = b[c[0]];
a=(b+c)[0]$a = (b + c)[0];
a=-b[0]$a = -b[0];
a=(-b)[0]$a = (-b)[0];
a=(b<c)[0]$a = (b < c)[0];
a=3[...]$a = 3[...];
a=abs(b)[0]$a = abs(b)[0];
a=b.T$a = transpose(b);
a=b.T.T$a = transpose(transpose(b));
a=b.T()$!1
a=b.T[0]$a = transpose(b)[0];
a=b.t$!1
a=b.copy()$a = b.copy();
a=b.copy$!1
a=b.copy(c)$!1
a=(b+c).copy()$a = (b + c).copy();
a=-b.copy()$a = -b.copy();
a=3.copy()$a = 3.copy();
a=b . copy ( )$a = b.copy();
a=b.flatten()$a = b.flatten();
a=b.astype(int8)$a = b.astype(int8);
a=b.astype()$!1
a=b.astype(c)$!1
a=b.astype(dtype=int8)$!1
a=b.reshape(3)$a = b.reshape(3);
a=b.reshape(2,3)$a = b.reshape((2, 3));
a=b.reshape((2,3))$a = b.reshape((2, 3));
a=b.reshape((3,))$a = b.reshape((3,));
a=b.reshape(())$a = b.reshape(());
a=b.reshape()$!1
a=b.reshape(2,3,)$!1
a=b.reshape(2,)$!1
a=b.transpose()$a = transpose(b);
a=b.transpose(0)$a = transpose(b, 0);
a=b.transpose(1,0)$a = transpose(b, (1, 0));
a=b.transpose((1,0))$a = transpose(b, (1, 0));
a=b.sum()$a = sum(b);
a=b.sum(0)$a = sum(b, axis=0);
a=b.max(axis=1)$a = max(b, axis=1);
a=b[0].all()$a = all(b[0]);
a=(b+c).min()$a = min(b + c);
a=b.sum(0,1)$!1
a=b.abs()$!1
a=b.take(c)$!1
a=b.cumsum()$!1
a=b.x$!1
a=b.$!1
a=.T$!1
";

// Each kind of statement, and which line is the first bad one.
const STATEMENTS: &[u8] = b"print(a)$print(a);
print ( a+b )$print(a + b);
print((a))$print(a);
print(a,b)$!1
print()$!1
print a$!1
print(a)b$!1
a=b=c$!1
a$!1
a=$!1
=1$!1
1=a$!1
(a)=1$!1
a,b=1$!1
a+=b$a += b;
a-=b$a -= b;
a*=b$a *= b;
a//=b$a //= b;
a%=b$a %= b;
a**=b$a **= b;
a&=b$a &= b;
a|=b$a |= b;
a^=b$a ^= b;
a<<=b$a <<= b;
a>>=b+c$a >>= b + c;
a[0]=1$a[0] = 1;
a[0,]=b$a[0] = b;
a[0]+=1$a[0] += 1;
a[0]//=b$a[0] //= b;
a[:,0]**=b$a[:, 0] **= b;
a[i+1:]=b<c$a[i + 1:] = b < c;
a[]=1$!1
a[0]$!1
a[0][1]=1$!1
a.T=1$!1
a=load(k)$a = load(k);
a=load(1)$!1
a=load(sum)$!1
a=load(k)+1$!1
a+=load(k)$!1
print(load(k))$!1
save(k,a)$save(k, a);
save(k, a+b)$save(k, a + b);
save(k)$!1
save(1,a)$!1
save(sum,a)$!1
a=1;b=2$a = 1;b = 2;
a=1;;# c;b=2;$a = 1;b = 2;
a=1;b$!2
print(1);x = = 2$!2
a=1;b c;d e$!2
;;a=$!3
";

// Loops and their blocks.
const BLOCKS: &[u8] = b"for i in range(3):;    print(i)$for i in range(3):;    print(i);
for i in range(1,3):;    print(i)$for i in range(1, 3):;    print(i);
for  i  in  range ( 3 ) :;    print(i)$for i in range(3):;    print(i);
for i in range(b+1,-c):;    print(i)$for i in range(b + 1, -c):;    print(i);
for i in range(3):;print(i)$!2
for i in range(3):$!1
a=1;for i in range(3):;;$!2
for i in range(3):;# c$!1
for i in range(3):;  # c;    print(i)$for i in range(3):;    print(i);
for i in range(3):;   print(i)$!2
for i in range(3):;     print(i)$!2
for i in range(3):;        print(i)$!2
for i in range(3):;\tprint(i)$!2
for i in range(3):;   \tprint(i)$!2
for i in range(3):;    a=1;    b=2;c=3$for i in range(3):;    a = 1;    b = 2;c = 3;
for i in range(3):;    a=1;;    b=2$for i in range(3):;    a = 1;    b = 2;
for i in range(3):;    for j in range(2):;        a=1;b=2$for i in range(3):;    for j in range(2):;        a = 1;b = 2;
for i in range(3):;    for j in range(2):;        a=1;    b=2$for i in range(3):;    for j in range(2):;        a = 1;    b = 2;
for i in range(3):;    for j in range(2):;    a=1$!3
for i in range(3):;    for j in range(2):;a=1$!3
for i in range(3):;    for j in range(2):$!2
for i in range(3):;    a=1;        b=2$!3
for i in range(3):;    a=1; b=2$!3
    a=1$!1
a=1;    b=2$!2
for i in range(3):;    a=1;for j in range(2):;    b=2$for i in range(3):;    a = 1;for j in range(2):;    b = 2;
for i in range(3)$!1
for i in range():;    a=1$!1
for i in range(1,2,3):;    a=1$!1
for i in range(3,):;    a=1$!1
for 1 in range(3):;    a=1$!1
for i in b:;    a=1$!1
for i in range(3): a=1$!1
for range in range(3):;    a=1$!1
";

// The bytes with the end of a line in place of each `;`.
fn unfolded(alloc: Global, bytes: &[u8]) -> Result<Vec<u8>, AllocError> {
    let mut lines = Vec::new(alloc);
    for byte in bytes {
        lines.push(if *byte == b';' { b'\n' } else { *byte })?;
    }
    Ok(lines)
}

// Whether the script has this canonical text, or this first bad line.
fn is_read(rt: &impl Abort, alloc: Global, script: &[u8], wanted: &[u8]) -> Result<bool, Fail> {
    assert!(rt; script.len() < 10_000);
    match read_script(alloc, script) {
        Ok(script) => {
            let text = text_of(alloc, &script)?;
            Ok(text.as_slice() == wanted)
        }
        Err(ScriptEnd::Syntax { line }) => {
            let named = [b'!', b'0'.wrapping_add((line % 10) as u8)];
            Ok(line < 10 && wanted == named.as_slice())
        },
        Err(end) => Err(Fail::from(end)),
    }
}

// Tries each row, and the canonical text of each once more. It gives the number of rows.
fn tried(rt: &impl Abort, alloc: Global, table: &[u8]) -> Result<usize, Fail> {
    let mut rows: usize = 0;
    for row in table.split(|b| *b == b'\n') {
        let mut parts = row.split(|b| *b == b'$');
        let (Some(script), Some(wanted)) = (parts.next(), parts.next()) else {
            continue;
        };
        rows = rows.saturating_add(1);
        let script = unfolded(alloc, script)?;
        let wanted = unfolded(alloc, wanted)?;
        assert!(rt; is_read(rt, alloc, &script, &wanted)?, "{row:?}");
        if !wanted.starts_with(b"!") {
            assert!(rt; is_read(rt, alloc, &wanted, &wanted)?, "{row:?}");
        }
    }
    Ok(rows)
}

#[test]
fn tokens(rt: HostRuntime) -> Result<(), Fail> {
    assert_eq!(rt; tried(&rt, rt.alloc(), TOKENS)?, 60);
    Ok(())
}

#[test]
fn operators(rt: HostRuntime) -> Result<(), Fail> {
    assert_eq!(rt; tried(&rt, rt.alloc(), OPERATORS)?, 52);
    Ok(())
}

#[test]
fn calls(rt: HostRuntime) -> Result<(), Fail> {
    assert_eq!(rt; tried(&rt, rt.alloc(), CALLS)?, 78);
    Ok(())
}

#[test]
fn suffixes(rt: HostRuntime) -> Result<(), Fail> {
    assert_eq!(rt; tried(&rt, rt.alloc(), SUFFIXES)?, 75);
    Ok(())
}

#[test]
fn statements(rt: HostRuntime) -> Result<(), Fail> {
    assert_eq!(rt; tried(&rt, rt.alloc(), STATEMENTS)?, 52);
    Ok(())
}

#[test]
fn blocks(rt: HostRuntime) -> Result<(), Fail> {
    assert_eq!(rt; tried(&rt, rt.alloc(), BLOCKS)?, 34);
    Ok(())
}

// No reserved word can be bound, and each can with a letter more.
#[test]
fn reserved_words(rt: HostRuntime) -> Result<(), Fail> {
    let alloc = rt.alloc();
    let mut words: usize = 0;
    for word in RESERVED.split(|b| b.is_ascii_whitespace()) {
        words = words.saturating_add(1);
        let bound = repeated(alloc, &[(word, 1), (b"=1", 1)])?;
        assert!(rt; is_read(&rt, alloc, &bound, b"!1")?, "{word:?}");
        let longer = repeated(alloc, &[(word, 1), (b"x=1", 1)])?;
        let wanted = repeated(alloc, &[(word, 1), (b"x = 1\n", 1)])?;
        assert!(rt; is_read(&rt, alloc, &longer, &wanted)?, "{word:?}");
    }
    assert_eq!(rt; words, 74);
    Ok(())
}

// Bytes that are written so many times each.
fn repeated(alloc: Global, parts: &[(&[u8], usize)]) -> Result<Vec<u8>, AllocError> {
    let mut text = Vec::new(alloc);
    for (part, times) in parts {
        for _time in 0..*times {
            text.extend_from_slice(part)?;
        }
    }
    Ok(text)
}

// Whether `print` of these brackets around a name is a script.
fn brackets(
    rt: &impl Abort,
    alloc: Global,
    open: &'static [u8],
    close: &'static [u8],
    n: usize,
) -> Result<bool, Fail> {
    let text = repeated(
        alloc,
        &[(b"print(", 1), (open, n), (b"a", 1), (close, n), (b")", 1)],
    )?;
    assert!(rt; text.len() < 10_000);
    Ok(read_script(alloc, &text).is_ok())
}

// At most 64 brackets are open, that of `print` among them.
#[test]
fn nesting(rt: HostRuntime) -> Result<(), Fail> {
    let alloc = rt.alloc();
    assert!(rt; brackets(&rt, alloc, b"(", b")", 63)?);
    assert!(rt; !brackets(&rt, alloc, b"(", b")", 64)?);
    assert!(rt; brackets(&rt, alloc, b"abs(", b")", 63)?);
    assert!(rt; !brackets(&rt, alloc, b"abs(", b")", 64)?);
    assert!(rt; brackets(&rt, alloc, b"a[", b"]", 63)?);
    assert!(rt; !brackets(&rt, alloc, b"a[", b"]", 64)?);
    Ok(())
}

// A tree is at most 200 high.
#[test]
fn heights(rt: HostRuntime) -> Result<(), Fail> {
    let alloc = rt.alloc();
    assert!(rt; brackets(&rt, alloc, b"-", b"", 200)?);
    assert!(rt; !brackets(&rt, alloc, b"-", b"", 201)?);
    assert!(rt; brackets(&rt, alloc, b"", b"+a", 200)?);
    assert!(rt; !brackets(&rt, alloc, b"", b"+a", 201)?);
    assert!(rt; brackets(&rt, alloc, b"", b".T", 200)?);
    assert!(rt; !brackets(&rt, alloc, b"", b".T", 201)?);
    assert!(rt; brackets(&rt, alloc, b"", b"[0]", 199)?);
    assert!(rt; !brackets(&rt, alloc, b"", b"[0]", 200)?);
    Ok(())
}

// Whether a statement in so many loops is a script.
fn loops(rt: &impl Abort, alloc: Global, depth: usize) -> Result<bool, Fail> {
    let mut text = Vec::new(alloc);
    for indent in 0..depth {
        for _space in 0..indent {
            text.extend_from_slice(b"    ")?;
        }
        text.extend_from_slice(b"for i in range(2):\n")?;
    }
    for _space in 0..depth {
        text.extend_from_slice(b"    ")?;
    }
    text.extend_from_slice(b"print(i)\n")?;
    assert!(rt; text.len() < 10_000);
    match read_script(alloc, &text) {
        Ok(script) => Ok(text_of(alloc, &script)? == text),
        Err(_) => Ok(false),
    }
}

// A statement stands in at most 16 loops.
#[test]
fn depths(rt: HostRuntime) -> Result<(), Fail> {
    let alloc = rt.alloc();
    assert!(rt; loops(&rt, alloc, 1)?);
    assert!(rt; loops(&rt, alloc, 16)?);
    assert!(rt; !loops(&rt, alloc, 17)?);
    Ok(())
}

// Canonical text adds parentheses: this chain is read, and its text is not read again.
#[test]
fn deeper_text(rt: HostRuntime) -> Result<(), Fail> {
    let alloc = rt.alloc();
    for (terms, again) in [(66, true), (67, false)] {
        let text = repeated(alloc, &[(b"x=a", 1), (b"+a", terms - 1)])?;
        assert!(rt; text.len() < 10_000);
        let script = read_script(alloc, &text)?;
        let text = text_of(alloc, &script)?;
        assert!(rt; text.len() < 10_000);
        assert_eq!(rt; read_script(alloc, &text).is_ok(), again);
    }
    Ok(())
}

// The laws have no body; that they can be called is all that there is to try.
#[test]
fn laws(_rt: HostRuntime) -> Result<(), Fail> {
    expressions_read_back();
    heads_read_back();
    scripts_read_back();
    Ok(())
}
