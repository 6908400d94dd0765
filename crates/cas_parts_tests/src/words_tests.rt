//! Operators on words, by values worked from C's rules. A negative number is its word: -1 is 4294967295, -2147483648 is
//! 2147483648.

use cas_base::{
    Kind, add, div_signed, div_unsigned, mul, narrow, rem_signed, rem_unsigned, sar, shl, shr, sub,
};

#[derive(Clone, Copy, Debug)]
enum Operator {
    Sum,
    Difference,
    Product,
    ShiftLeft,
    ShiftRight,
    ShiftRightSigned,
    SignedQuotient,
    SignedRemainder,
    Quotient,
    Remainder,
}

fn applied(operator: Operator, a: u32, b: u32) -> Option<u32> {
    match operator {
        Operator::Sum => Some(add(a, b)),
        Operator::Difference => Some(sub(a, b)),
        Operator::Product => Some(mul(a, b)),
        Operator::ShiftLeft => Some(shl(a, b)),
        Operator::ShiftRight => Some(shr(a, b)),
        Operator::ShiftRightSigned => Some(sar(a, b)),
        Operator::SignedQuotient => div_signed(a, b),
        Operator::SignedRemainder => rem_signed(a, b),
        Operator::Quotient => div_unsigned(a, b),
        Operator::Remainder => rem_unsigned(a, b),
    }
}

// Sums, differences and products wrap; shifts go by the count modulo 32; signed division rounds toward zero.
const ROWS: &[(Operator, u32, u32, Option<u32>)] = &[
    (Operator::Sum, 0, 0, Some(0)),
    (Operator::Sum, 1, 41, Some(42)),
    (Operator::Sum, 2147483647, 1, Some(2147483648)),
    (Operator::Sum, 2147483648, 2147483648, Some(0)),
    (Operator::Sum, 4294967295, 1, Some(0)),
    (Operator::Sum, 4294967295, 4294967295, Some(4294967294)),
    (Operator::Difference, 5, 3, Some(2)),
    (Operator::Difference, 3, 5, Some(4294967294)),
    (Operator::Difference, 0, 1, Some(4294967295)),
    (Operator::Difference, 0, 0, Some(0)),
    (Operator::Difference, 2147483648, 1, Some(2147483647)),
    (Operator::Difference, 0, 2147483648, Some(2147483648)),
    (Operator::Difference, 4294967295, 4294967295, Some(0)),
    (Operator::Product, 0, 4294967295, Some(0)),
    (Operator::Product, 123456789, 10, Some(1234567890)),
    (Operator::Product, 4294967289, 3, Some(4294967275)),
    (Operator::Product, 4294967295, 4294967295, Some(1)),
    (Operator::Product, 65536, 65536, Some(0)),
    (Operator::Product, 2147483647, 2, Some(4294967294)),
    (Operator::Product, 2147483648, 2, Some(0)),
    (Operator::ShiftLeft, 5, 0, Some(5)),
    (Operator::ShiftLeft, 1, 31, Some(2147483648)),
    (Operator::ShiftLeft, 1, 32, Some(1)),
    (Operator::ShiftLeft, 1, 33, Some(2)),
    (Operator::ShiftLeft, 3, 31, Some(2147483648)),
    (Operator::ShiftLeft, 4294967295, 1, Some(4294967294)),
    (Operator::ShiftLeft, 1, 4294967295, Some(2147483648)),
    (Operator::ShiftRight, 7, 1, Some(3)),
    (Operator::ShiftRight, 4294967288, 1, Some(2147483644)),
    (Operator::ShiftRight, 4294967295, 31, Some(1)),
    (Operator::ShiftRight, 2147483648, 31, Some(1)),
    (Operator::ShiftRight, 2147483648, 32, Some(2147483648)),
    (Operator::ShiftRight, 4294967295, 33, Some(2147483647)),
    (Operator::ShiftRightSigned, 7, 1, Some(3)),
    (Operator::ShiftRightSigned, 4294967288, 1, Some(4294967292)),
    (Operator::ShiftRightSigned, 4294967289, 1, Some(4294967292)),
    (Operator::ShiftRightSigned, 4294967295, 31, Some(4294967295)),
    (Operator::ShiftRightSigned, 2147483648, 31, Some(4294967295)),
    (Operator::ShiftRightSigned, 2147483648, 1, Some(3221225472)),
    (Operator::ShiftRightSigned, 2147483647, 31, Some(0)),
    (Operator::ShiftRightSigned, 2147483647, 1, Some(1073741823)),
    (Operator::ShiftRightSigned, 2147483648, 32, Some(2147483648)),
    (
        Operator::ShiftRightSigned,
        4294967295,
        4294967295,
        Some(4294967295),
    ),
    (Operator::SignedQuotient, 7, 2, Some(3)),
    (Operator::SignedRemainder, 7, 2, Some(1)),
    (Operator::SignedQuotient, 4294967289, 2, Some(4294967293)),
    (Operator::SignedRemainder, 4294967289, 2, Some(4294967295)),
    (Operator::SignedQuotient, 7, 4294967294, Some(4294967293)),
    (Operator::SignedRemainder, 7, 4294967294, Some(1)),
    (Operator::SignedQuotient, 4294967289, 4294967294, Some(3)),
    (
        Operator::SignedRemainder,
        4294967289,
        4294967294,
        Some(4294967295),
    ),
    (Operator::SignedQuotient, 0, 4294967295, Some(0)),
    (Operator::SignedRemainder, 0, 4294967295, Some(0)),
    (Operator::SignedQuotient, 4294967290, 3, Some(4294967294)),
    (Operator::SignedRemainder, 4294967290, 3, Some(0)),
    (Operator::SignedQuotient, 1, 2147483648, Some(0)),
    (Operator::SignedRemainder, 1, 2147483648, Some(1)),
    (
        Operator::SignedQuotient,
        2147483647,
        4294967295,
        Some(2147483649),
    ),
    (Operator::SignedRemainder, 2147483647, 4294967295, Some(0)),
    (
        Operator::SignedQuotient,
        2147483649,
        4294967295,
        Some(2147483647),
    ),
    (Operator::SignedRemainder, 2147483649, 4294967295, Some(0)),
    (Operator::SignedQuotient, 2147483648, 1, Some(2147483648)),
    (Operator::SignedRemainder, 2147483648, 1, Some(0)),
    (Operator::SignedQuotient, 2147483648, 2, Some(3221225472)),
    (Operator::SignedRemainder, 2147483648, 2, Some(0)),
    (
        Operator::SignedQuotient,
        2147483648,
        2147483647,
        Some(4294967295),
    ),
    (
        Operator::SignedRemainder,
        2147483648,
        2147483647,
        Some(4294967295),
    ),
    (Operator::SignedQuotient, 2147483648, 2147483648, Some(1)),
    (Operator::SignedRemainder, 2147483648, 2147483648, Some(0)),
    (Operator::SignedQuotient, 2147483648, 4294967295, None),
    (Operator::SignedRemainder, 2147483648, 4294967295, None),
    (Operator::SignedQuotient, 2147483648, 0, None),
    (Operator::SignedRemainder, 2147483648, 0, None),
    (Operator::SignedQuotient, 0, 0, None),
    (Operator::SignedRemainder, 0, 0, None),
    (Operator::Quotient, 7, 2, Some(3)),
    (Operator::Remainder, 7, 2, Some(1)),
    (Operator::Quotient, 4294967295, 2, Some(2147483647)),
    (Operator::Remainder, 4294967295, 2, Some(1)),
    (Operator::Quotient, 4294967289, 4, Some(1073741822)),
    (Operator::Remainder, 4294967289, 4, Some(1)),
    (Operator::Quotient, 4294967295, 1, Some(4294967295)),
    (Operator::Remainder, 4294967295, 1, Some(0)),
    (Operator::Quotient, 4294967295, 4294967295, Some(1)),
    (Operator::Remainder, 4294967295, 4294967295, Some(0)),
    (Operator::Quotient, 2147483648, 4294967295, Some(0)),
    (
        Operator::Remainder,
        2147483648,
        4294967295,
        Some(2147483648),
    ),
    (Operator::Quotient, 4294967295, 10, Some(429496729)),
    (Operator::Remainder, 4294967295, 10, Some(5)),
    (Operator::Quotient, 4294967295, 0, None),
    (Operator::Remainder, 4294967295, 0, None),
    (Operator::Quotient, 0, 0, None),
    (Operator::Remainder, 0, 0, None),
];

#[test]
fn operators_have_their_values(rt: HostRuntime) {
    for (operator, a, b, value) in ROWS {
        let found = applied(*operator, *a, *b);
        assert_eq!(rt; found, *value, "{operator:?} of {a} and {b}");
    }
}

// -128 is 4294967168, -56 is 4294967240, -32768 is 4294934528.
#[test]
fn conversions_keep_the_low_bits(rt: HostRuntime) {
    let table = [
        (0, Kind::I8, 0),
        (127, Kind::I8, 127),
        (128, Kind::I8, 4294967168),
        (200, Kind::I8, 4294967240),
        (255, Kind::I8, 4294967295),
        (256, Kind::I8, 0),
        (2147483647, Kind::I8, 4294967295),
        (4294967168, Kind::I8, 4294967168),
        (4294967167, Kind::I8, 127),
        (255, Kind::U8, 255),
        (256, Kind::U8, 0),
        (4294967295, Kind::U8, 255),
        (32767, Kind::I16, 32767),
        (32768, Kind::I16, 4294934528),
        (65535, Kind::I16, 4294967295),
        (65536, Kind::I16, 0),
        (4294934528, Kind::I16, 4294934528),
        (4294934527, Kind::I16, 32767),
        (65535, Kind::U16, 65535),
        (65536, Kind::U16, 0),
        (4294967295, Kind::U16, 65535),
        (2147483648, Kind::I32, 2147483648),
        (4294967295, Kind::I32, 4294967295),
        (2147483648, Kind::U32, 2147483648),
        (4294967295, Kind::U32, 4294967295),
    ];
    for (word, kind, value) in table {
        assert_eq!(rt; narrow(word, kind), value, "{word} as {kind:?}");
    }
}
