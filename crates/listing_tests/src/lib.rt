// Tests of the printout's lines.
#![tactic(auto)]

#[cfg(test)]
mod tests {
    use listing::slips::Slip;
    use listing::words::Shown;
    use slip::Fault;
    use std::test::Fail;

    #[test]
    fn a_slip_says_what_its_place_counts(rt: HostRuntime) -> Result<(), Fail> {
        let slip = Slip(Fault::BareNull { child: 3, slot: 7 });
        assert_eq!(rt;
            format!(in rt.alloc(); "{slip}")?.as_str(),
            "  REFUSED
    number   10
    word     bare null
    node     3
    place    7  (slot of the node)
    meaning  null in a row that is there, where null may not be
"
        );
        Ok(())
    }

    #[test]
    fn a_slip_without_a_place_says_no_more(rt: HostRuntime) -> Result<(), Fail> {
        let slip = Slip(Fault::NotThere);
        assert_eq!(rt;
            format!(in rt.alloc(); "{slip}")?.as_str(),
            "  REFUSED
    number   12
    word     not there
    node     0
    place    0
    meaning  no such batch, node, slot or fault
"
        );
        Ok(())
    }

    #[test]
    fn long_texts_are_cut_and_lines_kept(rt: HostRuntime) -> Result<(), Fail> {
        let heap = rt.alloc();
        let whole = Shown {
            text: "μ And",
            room: 5,
        };
        assert_eq!(rt; format!(in heap; "{whole}")?.as_str(), "μ And");
        let cut = Shown {
            text: "μ And",
            room: 4,
        };
        assert_eq!(rt; format!(in heap; "{cut}")?.as_str(), "μ An..");
        let lines = Shown {
            text: "a\nb\u{7f}",
            room: 9,
        };
        assert_eq!(rt; format!(in heap; "{lines}")?.as_str(), "a?b?");
        Ok(())
    }
}
