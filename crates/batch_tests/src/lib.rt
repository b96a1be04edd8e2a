// Records and cells of small batches, good ones and damaged ones.
#![tactic(auto)]

#[cfg(test)]
mod tests {
    use batch::cell::{Content, Shape, cell};
    use batch::record::record;
    use leaf::layout::Layout;
    use slip::Fault;
    use std::process::Abort;

    // One row of a struct with a text: {"a":"hi"}.
    fn one() -> [u8; 80] {
        let mut b = [0u8; 80];
        b[0] = 1;
        b[32] = 1;
        b[48] = 64;
        b[52] = 8;
        b[56] = 72;
        b[60] = 2;
        b[68] = 2;
        b[72] = b'h';
        b[73] = b'i';
        b
    }

    // Three rows of a struct with a list of texts: ["p"], null and ["q"].
    fn lists() -> [u8; 144] {
        let mut b = [0u8; 144];
        b[0] = 3;
        b[32] = 3;
        b[36] = 1;
        b[40] = 96;
        b[44] = 1;
        b[48] = 104;
        b[52] = 16;
        b[64] = 2;
        b[80] = 120;
        b[84] = 12;
        b[88] = 136;
        b[92] = 2;
        b[96] = 5;
        b[108] = 1;
        b[112] = 1;
        b[116] = 2;
        b[124] = 1;
        b[128] = 2;
        b[136] = b'p';
        b[137] = b'q';
        b
    }

    // One node with nine slots, of which the last but one is null: its bits, offsets of eight bytes and values count up.
    fn nine() -> [u8; 192] {
        let mut b = [0u8; 192];
        b[0] = 9;
        b[4] = 1;
        b[8] = 32;
        b[12] = 2;
        b[16] = 40;
        b[20] = 72;
        b[24] = 112;
        b[28] = 80;
        b[32] = 127;
        b[33] = 1;
        for k in 0..9 {
            b[40 + 8 * k as usize] = 2 * k;
        }
        for k in 0..80 {
            b[112 + k as usize] = k;
        }
        b
    }

    fn answers(r: Result<Content, Fault>, kind: u32, first: usize, second: usize) -> bool {
        r.is_ok_and(|content| <(u32, usize, usize)>::from(content) == (kind, first, second))
    }

    fn missing(r: Result<Content, Fault>) -> bool {
        r == Err(Fault::NotThere)
    }

    const TEXT: Shape = Shape::Leaf {
        layout: Layout::Text,
        wide: false,
    };

    const LONG: Shape = Shape::Leaf {
        layout: Layout::Text,
        wide: true,
    };

    const BIT: Shape = Shape::Leaf {
        layout: Layout::Bit,
        wide: false,
    };

    const EIGHT: Shape = Shape::Leaf {
        layout: Layout::Eight,
        wide: false,
    };

    const NONE: Shape = Shape::Leaf {
        layout: Layout::None,
        wide: false,
    };

    fn one_text(rt: &impl Abort, b: &[u8]) {
        let own = record(b, 1);
        assert!(rt; own.slots == 1 && own.nulls == 0 && own.validity.size == 0);
        assert!(rt; own.offsets.place == 64 && own.offsets.size == 8);
        assert!(rt; own.values.place == 72 && own.values.size == 2);
        assert!(rt; answers(cell(b, 100, Shape::Struct, 0, 0), 4, 0, 0));
        assert!(rt; answers(cell(b, 100, TEXT, 1, 0), 2, 172, 2));
        assert!(rt; missing(cell(b, 100, Shape::Struct, 0, 1)));
        assert!(rt; missing(cell(b, 100, TEXT, 1, 1)));
        assert!(rt; missing(cell(b, 100, TEXT, 3, 0)));
    }

    fn list_of_texts(rt: &impl Abort, b: &[u8]) {
        let list = Shape::List { wide: false };
        assert!(rt; answers(cell(b, 0, Shape::Struct, 0, 2), 4, 2, 0));
        assert!(rt; answers(cell(b, 0, list, 1, 0), 3, 0, 1));
        assert!(rt; answers(cell(b, 0, list, 1, 1), 0, 0, 0));
        assert!(rt; answers(cell(b, 0, list, 1, 2), 3, 1, 1));
        assert!(rt; answers(cell(b, 0, Shape::Map, 1, 2), 3, 1, 1));
        assert!(rt; answers(cell(b, 8, TEXT, 2, 1), 2, 145, 1));
        assert!(rt; missing(cell(b, 0, list, 1, 3)));
    }

    fn every_shape(rt: &impl Abort, b: &[u8]) {
        assert!(rt; answers(cell(b, 0, Shape::List { wide: true }, 0, 3), 3, 6, 2));
        assert!(rt;
            answers(
                cell(b, 0, Shape::View { wide: true }, 0, 1),
                3,
                2,
                1084818905618843912,
            )
        );
        assert!(rt; answers(cell(b, 0, Shape::Fixed { count: 7 }, 0, 3), 3, 21, 7));
        assert!(rt; answers(cell(b, 0, LONG, 0, 3), 2, 118, 2));
        assert!(rt; answers(cell(b, 0, BIT, 0, 8), 1, 1, 0));
        assert!(rt; answers(cell(b, 0, BIT, 0, 0), 1, 0, 0));
        assert!(rt; answers(cell(b, 0, EIGHT, 0, 8), 2, 176, 8));
        assert!(rt; answers(cell(b, 0, EIGHT, 0, 7), 0, 0, 0));
        assert!(rt; answers(cell(b, 0, NONE, 0, 8), 0, 0, 0));
    }

    fn damaged(rt: &impl Abort, b: &[u8]) {
        assert!(rt; answers(cell(b, 0, Shape::Struct, 0, 254), 4, 254, 0));
        assert!(rt; answers(cell(b, 0, TEXT, 2, 1), 2, 0, 0));
        assert!(rt; answers(cell(b, 0, Shape::List { wide: false }, 1, 1), 3, 1, 0));
        assert!(rt; missing(cell(b, 0, TEXT, usize::MAX, 0)));
    }

    fn cut_off(rt: &impl Abort, b: &[u8]) {
        assert!(rt; missing(cell(b, 0, TEXT, 1, 0)));
        assert!(rt; answers(cell(b, usize::MAX, EIGHT, 0, 7), 2, usize::MAX, 8));
    }

    #[test]
    fn good_batches(rt: HostRuntime) {
        one_text(&rt, &one());
        list_of_texts(&rt, &lists());
        every_shape(&rt, &nine());
    }

    #[test]
    fn damaged_batches(rt: HostRuntime) {
        let mut b = lists();
        b[0] = 255;
        b[43] = 255;
        b[83] = 255;
        damaged(&rt, &b);
        cut_off(&rt, &[255]);
    }
}
