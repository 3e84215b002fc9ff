// What lines of a script say, by example.
#![tactic(auto)]

#[cfg(test)]
mod tests {
    use script::{Call, ReadError, read_hex, read_line};
    use std::alloc::Global;
    use std::process::Abort;
    use std::test::Fail;

    // A word for each case, since a call holds a tape and is not compared.
    fn kind(heap: Global, line: &[u8]) -> &'static str {
        match read_line(heap, line) {
            Ok(None) => "nothing",
            Ok(Some(Call::Scheme(_))) => "scheme",
            Ok(Some(Call::List)) => "list",
            Ok(Some(Call::StoreBoard)) => "board",
            Ok(Some(Call::StoreList(_))) => "records",
            Ok(Some(Call::Filter { .. })) => "filter",
            Ok(Some(Call::Open(_))) => "open",
            Ok(Some(Call::Request { .. })) => "request",
            Ok(Some(Call::Rule { .. })) => "rule",
            Ok(Some(Call::State)) => "state",
            Ok(Some(Call::Check { .. })) => "check",
            Ok(Some(Call::Make { .. })) => "make",
            Ok(Some(Call::Table)) => "table",
            Err(ReadError::Unreadable) => "unreadable",
            Err(ReadError::OutOfMemory(_)) => "out of memory",
        }
    }

    fn is_scheme(heap: Global, line: &[u8], tape: &[u8]) -> bool {
        let call = read_line(heap, line);
        matches!(&call, Ok(Some(Call::Scheme(bytes))) if bytes.as_slice() == tape)
    }

    fn is_opening(heap: Global, line: &[u8], tape: &[u8]) -> bool {
        let call = read_line(heap, line);
        matches!(&call, Ok(Some(Call::Open(bytes))) if bytes.as_slice() == tape)
    }

    fn is_request(heap: Global, line: &[u8], number: u8, entries: &[u8]) -> bool {
        let call = read_line(heap, line);
        matches!(&call, Ok(Some(Call::Request { command, names })) if *command == number && names.as_slice() == entries)
    }

    fn is_rule(heap: Global, line: &[u8], question: (u8, u8, u8)) -> bool {
        matches!(read_line(heap, line), Ok(Some(Call::Rule { row, column, right })) if (row, column, right) == question)
    }

    fn is_check(heap: Global, line: &[u8], first: &[u8], second: &[u8]) -> bool {
        let call = read_line(heap, line);
        matches!(&call, Ok(Some(Call::Check { certificate, bans })) if certificate.as_slice() == first && bans.as_slice() == second)
    }

    fn is_making(heap: Global, line: &[u8], expected: u32, tape: &[u8]) -> bool {
        let call = read_line(heap, line);
        matches!(&call, Ok(Some(Call::Make { size, bans })) if *size == expected && bans.as_slice() == tape)
    }

    fn is_list_of(heap: Global, line: &[u8], size: u32) -> bool {
        matches!(read_line(heap, line), Ok(Some(Call::StoreList(records))) if records == size)
    }

    fn is_filter(heap: Global, line: &[u8], k: u8, rights: u16) -> bool {
        matches!(read_line(heap, line), Ok(Some(Call::Filter { attribute, mask })) if attribute == k && mask == rights)
    }

    // Each of the lines is of the one kind.
    fn all_are(rt: &impl Abort, heap: Global, expected: &str, lines: &[&str]) -> Result<(), Fail> {
        for line in lines {
            assert_eq!(rt; kind(heap, line.as_bytes()), expected);
        }
        Ok(())
    }

    #[test]
    fn lines_that_say_nothing(rt: HostRuntime) -> Result<(), Fail> {
        all_are(
            &rt,
            rt.alloc(),
            "nothing",
            &["", " \t \r", "# scheme 10", "\t#"],
        )
    }

    #[test]
    fn words_alone(rt: HostRuntime) -> Result<(), Fail> {
        all_are(&rt, rt.alloc(), "list", &["list", "\t list \r"])?;
        all_are(&rt, rt.alloc(), "state", &["state", "\t state \r"])?;
        all_are(&rt, rt.alloc(), "table", &["table", "\t table \r"])
    }

    #[test]
    fn schemes(rt: HostRuntime) -> Result<(), Fail> {
        let heap = rt.alloc();
        assert!(rt; is_scheme(heap, b"scheme", &[]));
        assert!(rt; is_scheme(heap, b"scheme 10aF", &[16, 175]));
        assert!(rt; is_scheme(heap, b" \tscheme\t09 fF\tAb \r", &[9, 255, 171]));
        Ok(())
    }

    #[test]
    fn openings(rt: HostRuntime) -> Result<(), Fail> {
        let heap = rt.alloc();
        assert!(rt; is_opening(heap, b"open", &[]));
        assert!(rt; is_opening(heap, b"\topen 4001 0b FF \r", &[64, 1, 11, 255]));
        Ok(())
    }

    #[test]
    fn requests(rt: HostRuntime) -> Result<(), Fail> {
        let heap = rt.alloc();
        assert!(rt; is_request(heap, b"request 0", 0, &[]));
        assert!(rt; is_request(heap, b"request 007 1 2", 7, &[1, 2]));
        assert!(rt;
            is_request(
                heap,
                b"\trequest\t255 \t 0255 64 0 64\r",
                255,
                &[255, 64, 0, 64]
            )
        );
        Ok(())
    }

    #[test]
    fn rules(rt: HostRuntime) -> Result<(), Fail> {
        let heap = rt.alloc();
        assert!(rt; is_rule(heap, b"rule 1 2 3", (1, 2, 3)));
        assert!(rt; is_rule(heap, b" rule\t255 000 \t 0016\r", (255, 0, 16)));
        Ok(())
    }

    #[test]
    fn checks(rt: HostRuntime) -> Result<(), Fail> {
        let heap = rt.alloc();
        assert!(rt; is_check(heap, b"check /", &[], &[]));
        assert!(rt; is_check(heap, b"check 50fF/", &[80, 255], &[]));
        assert!(rt; is_check(heap, b" check\t/ 60 0b \r", &[], &[96, 11]));
        assert!(rt; is_check(heap, b"check 51 00/60", &[81, 0], &[96]));
        assert!(rt; is_check(heap, b"check 51\t / \r 6001", &[81], &[96, 1]));
        Ok(())
    }

    #[test]
    fn checks_that_cannot_be_read(rt: HostRuntime) -> Result<(), Fail> {
        all_are(
            &rt,
            rt.alloc(),
            "unreadable",
            &[
                "check",
                "check 50",
                "check 50 60",
                "check 50/60/",
                "check 50//60",
                "check 5/060",
                "check 5 0/60",
                "check 50/6",
                "check 50/6 0",
                "check x/60",
                "check 50/x",
                "check/",
                "Check /",
            ],
        )
    }

    #[test]
    fn makings(rt: HostRuntime) -> Result<(), Fail> {
        let heap = rt.alloc();
        assert!(rt; is_making(heap, b"make", 5312, &[]));
        assert!(rt; is_making(heap, b"make 60 0b", 5312, &[96, 11]));
        assert!(rt; is_making(heap, b"make 5311 /", 5311, &[]));
        assert!(rt; is_making(heap, b"\tmake\t006000/60fF\r", 6000, &[96, 255]));
        assert!(rt; is_making(heap, b"make 0 / 60 01", 0, &[96, 1]));
        assert!(rt; is_making(heap, b"make 999999/ ", 999_999, &[]));
        Ok(())
    }

    #[test]
    fn makings_that_cannot_be_read(rt: HostRuntime) -> Result<(), Fail> {
        all_are(
            &rt,
            rt.alloc(),
            "unreadable",
            &[
                "make /",
                "make / 60",
                "make 1000000 /",
                "make 5312 60 / 60",
                "make 5312 / 60 /",
                "make 5312 // 60",
                "make 5312 / 6",
                "make 5312 / 6 0",
                "make FF / 60",
                "make -1 /",
                "make 6",
                "make x",
                "make5312 /",
                "Make",
            ],
        )
    }

    #[test]
    fn words_that_cannot_be_read(rt: HostRuntime) -> Result<(), Fail> {
        all_are(
            &rt,
            rt.alloc(),
            "unreadable",
            &[
                "list 1",
                "list#",
                "list\n",
                "LIST",
                "Scheme 10",
                "scheme10",
                "state x",
                "state 0",
                "State",
                "states",
                "table 1",
                "tables",
                "Table",
                "open10",
                "Open 10",
            ],
        )
    }

    #[test]
    fn hex_that_cannot_be_read(rt: HostRuntime) -> Result<(), Fail> {
        all_are(
            &rt,
            rt.alloc(),
            "unreadable",
            &[
                "scheme 1 0",
                "scheme 10 0",
                "scheme 101",
                "scheme 1g",
                "scheme 10 # ten",
                "open 4",
                "open 4 0",
                "open 40 x",
            ],
        )
    }

    #[test]
    fn stores(rt: HostRuntime) -> Result<(), Fail> {
        let heap = rt.alloc();
        all_are(&rt, heap, "board", &["store board", "\tstore \t board \r"])?;
        assert!(rt; is_list_of(heap, b"store list 0", 0));
        assert!(rt; is_list_of(heap, b"store\tlist  007\t", 7));
        assert!(rt; is_list_of(heap, b"store list 999999", 999_999));
        assert!(rt; is_list_of(heap, b"store list 0000000000000000000000000000000012", 12));
        Ok(())
    }

    #[test]
    fn filters(rt: HostRuntime) -> Result<(), Fail> {
        let heap = rt.alloc();
        assert!(rt; is_filter(heap, b"filter 0 FFFF", 0, 0xFFFF));
        assert!(rt; is_filter(heap, b"filter 4 01aB", 4, 0x01AB));
        assert!(rt; is_filter(heap, b"\tfilter\t0255 \t c00d\r", 255, 0xC00D));
        Ok(())
    }

    #[test]
    fn stores_that_cannot_be_read(rt: HostRuntime) -> Result<(), Fail> {
        all_are(
            &rt,
            rt.alloc(),
            "unreadable",
            &[
                "store",
                "store tray",
                "store Board",
                "store LIST 5",
                "store board x",
                "store list",
                "store list 1000000",
                "store list 1234567890123456789012345678901234567890",
                "store list 1 2",
                "store list -1",
                "store list 1a",
                "storeboard",
            ],
        )
    }

    #[test]
    fn filters_that_cannot_be_read(rt: HostRuntime) -> Result<(), Fail> {
        all_are(
            &rt,
            rt.alloc(),
            "unreadable",
            &[
                "filter",
                "filter 0",
                "filter 256 0000",
                "filter A 0000",
                "filter 0 FFF",
                "filter 0 FF FF",
                "filter 0 FFFFF",
                "filter 0 FFFG",
                "filter 0 FFFF 0",
            ],
        )
    }

    #[test]
    fn requests_that_cannot_be_read(rt: HostRuntime) -> Result<(), Fail> {
        all_are(
            &rt,
            rt.alloc(),
            "unreadable",
            &[
                "request",
                "request x",
                "request 256",
                "request -1",
                "request 0 x",
                "request 0 1 256",
                "request 0 1 2x",
                "request 0 1, 2",
                "request 0 # 1",
                "request0 1",
                "Request 0",
            ],
        )
    }

    #[test]
    fn rules_that_cannot_be_read(rt: HostRuntime) -> Result<(), Fail> {
        all_are(
            &rt,
            rt.alloc(),
            "unreadable",
            &[
                "rule",
                "rule 1",
                "rule 1 2",
                "rule 1 2 3 4",
                "rule 1 2 x",
                "rule x 2 3",
                "rule 256 2 3",
                "rule 1 256 3",
                "rule 1 2 256",
                "rule1 2 3",
                "RULE 1 2 3",
            ],
        )
    }

    #[test]
    fn hex_alone(rt: HostRuntime) -> Result<(), Fail> {
        let bytes = read_hex(rt.alloc(), b" 00\r7E ").map_err(|_| "two bytes are spelt")?;
        assert!(rt; bytes.as_slice() == [0, 126].as_slice());
        Ok(())
    }
}
