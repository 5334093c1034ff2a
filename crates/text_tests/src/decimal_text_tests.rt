use crate::expected::{assert_at, assert_same};
use byte_strings::{decimal_from_to, is_decimal, value_of};

// A number from 1 to 65,535 where the text writes one. All are own, by hand from the form.
static NUMBERS: [(&'static [u8], Option<u64>); 9] = [
    (b"1", Some(1)),
    (b"65535", Some(65_535)),
    (b"0", None),
    (b"65536", None),
    (b"18446744073709551617", None),
    (b"", None),
    (b"01", None),
    (b"1a", None),
    (b"+1", None),
];

#[test]
fn a_decimal_writes_its_number(rt: HostRuntime) {
    for (text, want) in &NUMBERS {
        let text = *text;
        assert_at(&rt, decimal_from_to(text, 1, 65_535), *want, "number", text);
    }
    let greatest: &[u8] = b"18446744073709551615";
    let what = "the greatest number";
    assert!(rt; is_decimal(greatest), "{what}");
    assert_same(&rt, value_of(greatest), Some(u64::MAX), what);
}
