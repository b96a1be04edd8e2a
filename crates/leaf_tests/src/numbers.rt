// Which numbers the leaf of thousandths reads, and how it rounds them.
use crate::gives;
use leaf::Leaf;
use leaf::layout::Reply;
use tape::element::Element;
use thousandths::Thousandths;
use thousandths::amount::{of_text, of_whole};

#[test]
fn rounds_to_the_nearest(rt: HostRuntime) {
    assert_eq!(rt; of_text(b"1.0004999999999999"), Some(1000));
    assert_eq!(rt; of_text(b"1.0005"), Some(1001));
    assert_eq!(rt; of_text(b"1.0015"), Some(1002));
    assert_eq!(rt; of_text(b"1.000500000000000001"), Some(1001));
    assert_eq!(rt; of_text(b"-0.0005"), Some(-1));
    assert_eq!(rt; of_text(b"-0.00049"), Some(0));
    assert_eq!(rt; of_text(b"999999999999.9995"), Some(1_000_000_000_000_000));
    assert_eq!(rt;
        of_text(b"-999999999999.999499999999999999"),
        Some(-999_999_999_999_999)
    );
}

#[test]
fn reads_the_forms(rt: HostRuntime) {
    assert_eq!(rt; of_text(b"0"), Some(0));
    assert_eq!(rt; of_text(b"-0"), Some(0));
    assert_eq!(rt; of_text(b"-0.000"), Some(0));
    assert_eq!(rt; of_text(b"7"), Some(7000));
    assert_eq!(rt; of_text(b"10.5"), Some(10_500));
    assert_eq!(rt; of_text(b"0.125"), Some(125));
    assert_eq!(rt; of_text(b"-12.3456"), Some(-12_346));
    assert_eq!(rt; of_text(b"999999999999"), Some(999_999_999_999_000));
}

#[test]
fn refuses_the_rest(rt: HostRuntime) {
    assert_eq!(rt; of_text(b""), None);
    assert_eq!(rt; of_text(b"-"), None);
    assert_eq!(rt; of_text(b"--1"), None);
    assert_eq!(rt; of_text(b"+1"), None);
    assert_eq!(rt; of_text(b"01"), None);
    assert_eq!(rt; of_text(b"-00"), None);
    assert_eq!(rt; of_text(b".5"), None);
    assert_eq!(rt; of_text(b"1."), None);
    assert_eq!(rt; of_text(b"1.2.3"), None);
    assert_eq!(rt; of_text(b"1e3"), None);
    assert_eq!(rt; of_text(b"1.5e3"), None);
    assert_eq!(rt; of_text(b" 1"), None);
}

#[test]
fn refuses_what_is_too_long(rt: HostRuntime) {
    assert_eq!(rt; of_text(b"1000000000000"), None);
    assert_eq!(rt; of_text(b"0.1234567890123456789"), None);
    assert_eq!(rt; of_text(b"0.123456789012345678"), Some(123));
    assert_eq!(rt; of_whole(999_999_999_999), Some(999_999_999_999_000));
    assert_eq!(rt; of_whole(-999_999_999_999), Some(-999_999_999_999_000));
    assert_eq!(rt; of_whole(1_000_000_000_000), None);
    assert_eq!(rt; of_whole(-1_000_000_000_000), None);
    assert_eq!(rt; of_whole(i64::MIN), None);
    assert_eq!(rt; of_whole(i64::MAX), None);
}

#[test]
fn writes_eight_bytes(rt: HostRuntime) {
    let leaf = Thousandths;
    assert!(rt; gives(&leaf, Element::Number(b"-0.0005"), &[255; 8]));
    assert!(rt;
        gives(
            &leaf,
            Element::Number(b"1.0005"),
            &[233, 3, 0, 0, 0, 0, 0, 0],
        )
    );
    assert!(rt; gives(&leaf, Element::I32(2), &[208, 7, 0, 0, 0, 0, 0, 0]));
}

#[test]
fn answers_elements(rt: HostRuntime) {
    let leaf = Thousandths;
    assert_eq!(rt; leaf.answer(Element::Null), Reply::Null);
    assert_eq!(rt; leaf.answer(Element::String(b"1")), Reply::Conflict);
    assert_eq!(rt; leaf.answer(Element::True), Reply::Conflict);
    assert_eq!(rt; leaf.answer(Element::List), Reply::Conflict);
    assert_eq!(rt; leaf.answer(Element::Number(b"1,5")), Reply::Conflict);
    assert_eq!(rt; leaf.answer(Element::I64(i64::MAX)), Reply::Conflict);
}
