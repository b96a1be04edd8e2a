// What each leaf, layer and pile makes of elements.
use crate::{AlwaysNull, AlwaysSame, gives};
use leaf::Leaf;
use leaf::layers::Coerce;
use leaf::layout::{Layout, Reply};
use leaf::leaves::{Boolean, Null, Text};
use leaf::piles::{boolean_pile, custom_pile, null_pile, text_pile};
use schema::settings::Settings;
use std::test::Fail;
use tape::Tape;
use tape::element::Element;
use thousandths::Thousandths;

const OFF: Settings = Settings {
    coerce: false,
    strict: false,
    lenient: false,
    list_rows: false,
};

const COERCE: Settings = Settings {
    coerce: true,
    ..OFF
};

const LENIENT: Settings = Settings {
    lenient: true,
    ..OFF
};

#[test]
fn plain_leaves(rt: HostRuntime) {
    assert!(rt; gives(&Text, Element::String(b"hi"), b"hi"));
    assert!(rt; gives(&Text, Element::String(b""), b""));
    assert_eq!(rt; Text.answer(Element::Null), Reply::Null);
    assert_eq!(rt; Text.answer(Element::Number(b"1")), Reply::Conflict);
    assert!(rt; gives(&Boolean, Element::True, &[1]));
    assert!(rt; gives(&Boolean, Element::False, &[0]));
    assert_eq!(rt; Boolean.answer(Element::Null), Reply::Null);
    assert_eq!(rt; Boolean.answer(Element::String(b"true")), Reply::Conflict);
    assert_eq!(rt; Null.answer(Element::Null), Reply::Null);
    assert_eq!(rt; Null.answer(Element::List), Reply::Conflict);
}

#[test]
fn words(rt: HostRuntime) {
    assert_eq!(rt; text_pile(COERCE).word(), "string");
    assert_eq!(rt; boolean_pile(OFF).word(), "boolean");
    assert_eq!(rt; null_pile(LENIENT).word(), "null");
    assert_eq!(rt; custom_pile(OFF, &Thousandths).word(), "number");
}

#[test]
fn coerces_only_text(rt: HostRuntime) {
    let text = text_pile(COERCE);
    assert!(rt; gives(&text, Element::True, b"true"));
    assert!(rt; gives(&text, Element::False, b"false"));
    assert!(rt; gives(&text, Element::Number(b"1e3"), b"1e3"));
    assert!(rt; gives(&text, Element::I32(-7), b"-7"));
    assert_eq!(rt; text.answer(Element::Null), Reply::Null);
    assert_eq!(rt; text.answer(Element::Object), Reply::Conflict);
    assert_eq!(rt; text_pile(OFF).answer(Element::True), Reply::Conflict);
    let bits = Coerce {
        below: Boolean,
        on: true,
    };
    assert_eq!(rt; bits.answer(Element::Number(b"1")), Reply::Conflict);
    assert!(rt; gives(&bits, Element::True, &[1]));
}

#[test]
fn whole_numbers_as_text(rt: HostRuntime) {
    let text = text_pile(COERCE);
    assert!(rt; gives(&text, Element::Number(b"-0"), b"-0"));
    assert!(rt; gives(&text, Element::I64(0), b"0"));
    assert!(rt; gives(&text, Element::I64(10), b"10"));
    assert!(rt; gives(&text, Element::I64(i64::MAX), b"9223372036854775807"));
    assert!(rt; gives(&text, Element::I64(i64::MIN), b"-9223372036854775808"));
    assert!(rt; gives(&text, Element::I32(i32::MIN), b"-2147483648"));
}

// An upper half of -1 and a lower half of 0, from the tape's own bytes.
#[test]
fn halves_as_text(rt: HostRuntime) -> Result<(), Fail> {
    let elements = [
        b'z', 0, 0, 0, 0, 0, 0, 0, b'j', 0, 0, 0, 255, 255, 255, 255, b'i', 0, 0, 0, 0, 0, 0, 0,
    ];
    let tape = Tape::open(&elements, b"", b"")?;
    assert!(rt; tape.count() > 1);
    assert!(rt; gives(&text_pile(COERCE), tape.element(1), b"-4294967296"));
    Ok(())
}

#[test]
fn lenient_hides_conflicts_alone(rt: HostRuntime) {
    assert_eq!(rt; boolean_pile(LENIENT).answer(Element::I32(1)), Reply::Null);
    assert_eq!(rt; boolean_pile(OFF).answer(Element::I32(1)), Reply::Conflict);
    assert_eq!(rt; null_pile(LENIENT).answer(Element::True), Reply::Null);
    assert!(rt; gives(&text_pile(LENIENT), Element::String(b"x"), b"x"));
    let nine = AlwaysSame {
        layout: Layout::Eight,
        size: 9,
        byte: 0,
    };
    assert_eq!(rt;
        custom_pile(LENIENT, &nine).answer(Element::Null),
        Reply::Misfit
    );
}

// Whether so many equal bytes fit a layout.
fn fits(layout: Layout, size: usize, byte: u8) -> bool {
    let same = AlwaysSame { layout, size, byte };
    let pile = custom_pile(OFF, &same);
    matches!(pile.answer(Element::String(b"x")), Reply::Value(_))
}

#[test]
fn checked_by_layout(rt: HostRuntime) {
    assert!(rt; !fits(Layout::None, 0, 0));
    assert!(rt; !fits(Layout::Bit, 0, 0));
    assert!(rt; fits(Layout::Bit, 1, 1));
    assert!(rt; !fits(Layout::Bit, 1, 2));
    assert!(rt; !fits(Layout::Bit, 2, 0));
    assert!(rt; fits(Layout::Text, 0, 0));
    assert!(rt; fits(Layout::Text, 900, 7));
    assert!(rt; !fits(Layout::Eight, 7, 0));
    assert!(rt; fits(Layout::Eight, 8, 0));
    assert!(rt; !fits(Layout::Eight, 9, 0));
}

// A custom leaf that never has a value is a leaf like any other.
#[test]
fn a_leaf_that_is_always_null(rt: HostRuntime) {
    let leaf = AlwaysNull;
    let pile = custom_pile(OFF, &leaf);
    assert_eq!(rt; pile.layout(), Layout::Eight);
    assert_eq!(rt; pile.answer(Element::Number(b"1")), Reply::Null);
    assert_eq!(rt; pile.answer(Element::Object), Reply::Null);
}
