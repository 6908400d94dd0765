//! Module texts, each with its canonical text as it was written by hand.

use cas_print::print_module;
use cas_read::read_module;
use std::alloc::Global;
use std::process::Abort;
use std::test::Fail;

// Expressions with all parentheses, and as they are printed.
const EXPRESSIONS: [(&str, &str); 9] = [
    ("((x) + (y)) * (z)", "( x + y ) * z"),
    ("x + (y * z)", "x + y * z"),
    ("x - (y - z)", "x - ( y - z )"),
    ("(x - y) - z", "x - y - z"),
    ("-(-x)", "- - x"),
    ("0 ? (x) : (y)", "0 ? x : y"),
    (
        "(x ? y : z) ? y : (x ? y : z)",
        "( x ? y : z ) ? y : x ? y : z",
    ),
    (
        "(unsigned char) ((x == y) && z)",
        "( unsigned char ) ( x == y && z )",
    ),
    ("*(p + 4u)", "* ( p + 4u )"),
];

// Statements, each form of them, and as they are printed.
const STATEMENTS: [(&str, &str); 13] = [
    (";", ";"),
    (
        "{ ; { } }",
        "{
;
{
}
}",
    ),
    (
        "int a, *b, c[3], d = 1, *e = f(), g = f(1, 2);",
        "int a ;
int * b ;
int c [ 3 ] ;
int d = 1 ;
int * e = f ( ) ;
int g = f ( 1 , 2 ) ;",
    ),
    (
        "x = 1; x[1] = 2; *x = 3; *(x + 1) = 4; x = f(x); f(); f(1, x[2]);",
        "x = 1 ;
x [ 1 ] = 2 ;
* x = 3 ;
* ( x + 1 ) = 4 ;
x = f ( x ) ;
f ( ) ;
f ( 1 , x [ 2 ] ) ;",
    ),
    (
        "x += 1; x -= 1; x *= 1; x /= 1; x %= 1; x <<= 1; x >>= 1; x &= 1; x |= 1; x ^= 1;",
        "x += 1 ;
x -= 1 ;
x *= 1 ;
x /= 1 ;
x %= 1 ;
x <<= 1 ;
x >>= 1 ;
x &= 1 ;
x |= 1 ;
x ^= 1 ;",
    ),
    (
        "x++; ++x; x--; --x; x[1]++; ++x[1]; ++*x; --*(x + 1); *x++;",
        "x += 1 ;
x += 1 ;
x -= 1 ;
x -= 1 ;
x [ 1 ] += 1 ;
x [ 1 ] += 1 ;
* x += 1 ;
* ( x + 1 ) -= 1 ;
* x += 1 ;",
    ),
    (
        "if (x) y = 1; else if (z) y = 2; else { }",
        "if ( x ) y = 1 ;
else if ( z ) y = 2 ;
else {
}",
    ),
    (
        "while (x) break; do continue; while (x);",
        "while ( x ) break ;
do continue ;
while ( x ) ;",
    ),
    (
        "for (;;) ; for (x = 1; x < 3; x++) ; for (int i = 0; i; f()) ;",
        "for ( ; ; ) ;
for ( x = 1 ; x < 3 ; x += 1 ) ;
for ( int i = 0 ; i ; f ( ) ) ;",
    ),
    (
        "return; return x; lock(L); unlock(L); print(x);",
        "return ;
return x ;
lock ( L ) ;
unlock ( L ) ;
print ( x ) ;",
    ),
    (
        "x = a ? b : c ? d : e; x = a || b && c | d ^ e & f == g != h;",
        "x = a ? b : c ? d : e ;
x = a || b && c | d ^ e & f == g != h ;",
    ),
    (
        "x = a < b > c <= d >= e << f >> g + h - i * j / k % l;",
        "x = a < b > c <= d >= e << f >> g + h - i * j / k % l ;",
    ),
    (
        "x = -a + +b - ~c * !d; x = *p + *(p + 1); x = &y; x = &y[1]; x = (int) a + (unsigned short int) -b; x = (a);",
        "x = - a + + b - ~ c * ! d ;
x = * p + * ( p + 1 ) ;
x = & y ;
x = & y [ 1 ] ;
x = ( int ) a + ( unsigned short ) - b ;
x = a ;",
    ),
];

// Modules, and as they are printed.
const MODULES: [(&str, &str); 3] = [
    (
        "void w(int me) { print(me + 41); }",
        "void w ( int me ) {
print ( me + 41 ) ;
}
",
    ),
    (
        "lock L; extern shared(L) unsigned char h[3]; const short t[3] = {1, -1}; const int g = -2147483648; const unsigned u = 4294967295; void f() holds(L); void w(int me) holds(L) { for (int i; i;) ; if (me) { break; } else lock(L); print(me + 41); }",
        "lock L ;
extern shared ( L ) unsigned char h [ 3 ] ;
const short t [ 3 ] = { 1 , - 1 } ;
const int g = - 2147483648 ;
const unsigned u = 4294967295 ;
void f ( void ) holds ( L ) ;
void w ( int me ) holds ( L ) {
for ( int i ; i ; ) ;
if ( me ) {
break ;
}
else lock ( L ) ;
print ( me + 41 ) ;
}
",
    ),
    (
        "int g(int x) { int a[3]; char *p = &x; unsigned y = f(x); a[x] = x || y; *p += a[x]; *(p + 4u) <<= &a[x]; x = f(x, y); if (x) ; while (x) ; do continue; while (x); for (; ; f()) ; unlock(L); return x; return; }",
        "int g ( int x ) {
int a [ 3 ] ;
char * p = & x ;
unsigned y = f ( x ) ;
a [ x ] = x || y ;
* p += a [ x ] ;
* ( p + 4u ) <<= & a [ x ] ;
x = f ( x , y ) ;
if ( x ) ;
while ( x ) ;
do continue ;
while ( x ) ;
for ( ; ; f ( ) ) ;
unlock ( L ) ;
return x ;
return ;
}
",
    ),
];

fn assert_printed(rt: &impl Abort, alloc: Global, text: &str, wanted: &str) -> Result<(), Fail> {
    if text.len() > 10000 {
        return Err(Fail::new("too long a row"));
    }
    let Ok(module) = read_module(alloc, text.as_bytes()) else {
        return Err(Fail::new(text));
    };
    let printed = print_module(alloc, &module)?;
    assert_eq!(rt; printed.as_str(), wanted, "{text}");
    Ok(())
}

#[test]
fn texts_are_canonical(rt: HostRuntime) -> Result<(), Fail> {
    let alloc = rt.alloc();
    for (text, wanted) in EXPRESSIONS {
        let text = format!(in alloc; "void w() {{ x = {text}; }}")?;
        let wanted = format!(in alloc; "void w ( void ) {{\nx = {wanted} ;\n}}\n")?;
        assert_printed(&rt, alloc, text.as_str(), wanted.as_str())?;
    }
    for (text, wanted) in STATEMENTS {
        let text = format!(in alloc; "void w() {{ {text} }}")?;
        let wanted = format!(in alloc; "void w ( void ) {{\n{wanted}\n}}\n")?;
        assert_printed(&rt, alloc, text.as_str(), wanted.as_str())?;
    }
    for (text, wanted) in MODULES {
        assert_printed(&rt, alloc, text, wanted)?;
    }
    Ok(())
}
