use ax_base::{add, bit_not, div, mul, neg, rem, shl, shr, sub};

const LEAST: i32 = -2147483648;

const GREATEST: i32 = 2147483647;

#[test]
fn answers_as_c_does(rt: HostRuntime) {
    let rows = [
        ("greatest + 1", add(GREATEST, 1), None),
        ("greatest + least", add(GREATEST, LEAST), Some(-1)),
        ("least - 1", sub(LEAST, 1), None),
        ("0 - least", sub(0, LEAST), None),
        ("65536 * 32768", mul(65536, 32768), None),
        ("65536 * -32768", mul(65536, -32768), Some(LEAST)),
        ("-least", neg(LEAST), None),
        ("-greatest", neg(GREATEST), Some(-2147483647)),
        ("1 / 0", div(1, 0), None),
        ("least / -1", div(LEAST, -1), None),
        ("-7 / 2", div(-7, 2), Some(-3)),
        ("7 / -2", div(7, -2), Some(-3)),
        ("1 % 0", rem(1, 0), None),
        ("least % -1", rem(LEAST, -1), None),
        ("-7 % 2", rem(-7, 2), Some(-1)),
        ("7 % -2", rem(7, -2), Some(1)),
        ("1 << 30", shl(1, 30), Some(1073741824)),
        ("1 << 31", shl(1, 31), None),
        ("0 << 31", shl(0, 31), Some(0)),
        ("0 << 32", shl(0, 32), None),
        ("1 << -1", shl(1, -1), None),
        ("-1 << 0", shl(-1, 0), None),
        ("-5 >> 1", shr(-5, 1), Some(-3)),
        ("greatest >> 31", shr(GREATEST, 31), Some(0)),
        ("1 >> 32", shr(1, 32), None),
        ("1 >> -1", shr(1, -1), None),
    ];
    for (text, found, wanted) in &rows {
        assert!(rt; *found == *wanted, "{text}");
    }
    assert!(rt; bit_not(0) == -1);
    assert!(rt; bit_not(LEAST) == GREATEST);
}
