//! The console on tables of lines and replies.
#![tactic(auto)]

#[cfg(test)]
mod tests {
    use console::{Command, Opening, Reader, value_of};
    use refusal::Refusal;
    use reply::{Kind, Reply};
    use std::test::Fail;

    // Each answer as a word and a number; an even opening with its two numbers side by side.
    fn heard(answer: Option<Result<Command<'_>, Refusal>>) -> (&'static str, u32) {
        match answer {
            Some(Ok(Command::Take(number))) => ("take", value_of(number)),
            Some(Ok(Command::Drop)) => ("drop", 0),
            Some(Ok(Command::Wipe)) => ("wipe", 0),
            Some(Ok(Command::Settle)) => ("settle", 0),
            Some(Ok(Command::Divide(number))) => ("divide", value_of(number)),
            Some(Ok(Command::Exact(number))) => ("exact", value_of(number)),
            Some(Err(why)) => ("refused", u32::from(why.number())),
            None => ("none", 0),
        }
    }

    fn opened(answer: Option<Result<Opening<'_>, Refusal>>) -> (&'static str, u32, u32) {
        match answer {
            Some(Ok(Opening::Ceiling { limit })) => ("ceiling", 0, value_of(limit)),
            Some(Ok(Opening::Middle { limit })) => ("middle", 0, value_of(limit)),
            Some(Ok(Opening::Even { length, limit })) => (
                "even",
                value_of(length),
                value_of(limit),
            ),
            Some(Err(why)) => ("refused", 0, u32::from(why.number())),
            None => ("none", 0, 0),
        }
    }

    #[test]
    fn single_lines(rt: HostRuntime) {
        let table = [
            ("take 0", "take", 0),
            ("take 5", "take", 5),
            ("take 65536\n", "take", 65536),
            ("take 999999\n", "take", 999_999),
            ("drop", "drop", 0),
            ("wipe\n", "wipe", 0),
            ("settle", "settle", 0),
            ("divide 8", "divide", 8),
            ("exact 100000", "exact", 100_000),
            ("", "none", 0),
        ];
        for (input, word, number) in table {
            let mut reader = Reader::new(input.as_bytes());
            assert_eq!(rt; heard(reader.next_line()), (word, number), "{input}");
        }
        let malformed = concat!(
            "\n",
            " \n",
            "take\n",
            "take \n",
            "take5\n",
            "take  5\n",
            " take 5\n",
            "take 5 \n",
            "take 5 5\n",
            "take\t5\n",
            "take 05\n",
            "take 00\n",
            "take 000000\n",
            "take 1000000\n",
            "take 0999999\n",
            "take +5\n",
            "take -5\n",
            "take 5.\n",
            "take 1e3\n",
            "take 0x5\n",
            "take /\n",
            "take :\n",
            "take five\n",
            "take ٥\n",
            "Take 5\n",
            "TAKE 5\n",
            "taken 5\n",
            "take 5\r\n",
            "take 5\0\n",
            "\0take 5\n",
            "drop\r\n",
            "drop \n",
            "drop 1\n",
            "drop\0\n",
            "dropp\n",
            "dro\n",
            "Drop\n",
            "wipe 0\n",
            " wipe\n",
            "settle \n",
            "settled\n",
            "divide\n",
            "divide \n",
            "divide 2 3\n",
            "divide 08\n",
            "exact\n",
            "exact 1234567\n",
            "open ceiling 8\n",
            "# take 5\n",
        );
        let mut reader = Reader::new(malformed.as_bytes());
        for line in malformed.lines() {
            assert_eq!(rt; heard(reader.next_line()), ("refused", 14), "{line}");
        }
        assert_eq!(rt; heard(reader.next_line()).0, "none");
    }

    #[test]
    fn first_lines(rt: HostRuntime) {
        let table = [
            ("open ceiling 8", "ceiling", 0, 8),
            ("open ceiling 0\n", "ceiling", 0, 0),
            ("open middle 999999", "middle", 0, 999_999),
            ("open even 2 8", "even", 2, 8),
            ("open even 0 0\n", "even", 0, 0),
            ("open even 123456 654321", "even", 123_456, 654_321),
            ("", "none", 0, 0),
        ];
        for (input, word, length, limit) in table {
            let mut reader = Reader::new(input.as_bytes());
            assert_eq!(rt;
                opened(reader.next_opening()),
                (word, length, limit),
                "{input}"
            );
        }
        let malformed = concat!(
            "\n",
            "open\n",
            "open \n",
            "open 8\n",
            "open ceiling\n",
            "open ceiling \n",
            "open ceiling  8\n",
            "open  ceiling 8\n",
            " open ceiling 8\n",
            "open ceiling 8 \n",
            "open ceiling 2 8\n",
            "open ceiling 08\n",
            "open ceiling 1000000\n",
            "open Ceiling 8\n",
            "Open ceiling 8\n",
            "openceiling 8\n",
            "open middle\n",
            "open middle 3\r\n",
            "open middle 2 3\n",
            "open middle x\n",
            "open even\n",
            "open even \n",
            "open even 2\n",
            "open even 2 \n",
            "open even  2 8\n",
            "open even 2  8\n",
            "open even  8\n",
            "open even 02 8\n",
            "open even 2 08\n",
            "open even 2 8 \n",
            "open even 2 8 1\n",
            "open even 2\t8\n",
            "open even 1234567 8\n",
            "open even 2 1234567\n",
            "open even x 8\n",
            "open even 2 -8\n",
            "open odd 2 8\n",
            "take 5\n",
        );
        let mut reader = Reader::new(malformed.as_bytes());
        for line in malformed.lines() {
            assert_eq!(rt; opened(reader.next_opening()), ("refused", 0, 14), "{line}");
        }
        assert_eq!(rt; opened(reader.next_opening()).0, "none");
    }

    // A line too long is one line, and a byte 10 at the very end begins no other.
    #[test]
    fn many_lines(rt: HostRuntime) {
        let input = "open even 2 8\n\ntake 7\n\
            take 5                                                                          \n\
            xxxxxxxxxxxxxxxxxxxxxxxxxxxxxxxxxxxxxxxxxxxxxxxxxxxxxxxxxxxxxxxxxxxxxxxxxxxxxxxxx\n\
            settle\ndivide 3\n\nwipe";
        let table = [
            ("refused", 14),
            ("take", 7),
            ("refused", 14),
            ("refused", 14),
            ("settle", 0),
            ("divide", 3),
            ("refused", 14),
            ("wipe", 0),
            ("none", 0),
            ("none", 0),
        ];
        let mut reader = Reader::new(input.as_bytes());
        let first = opened(reader.next_opening());
        assert_eq!(rt; first.0, "even");
        for (word, number) in table {
            assert_eq!(rt; heard(reader.next_line()), (word, number));
        }
        let mut ended = Reader::new(b"drop\n");
        assert_eq!(rt; heard(ended.next_line()).0, "drop");
        assert_eq!(rt; heard(ended.next_line()).0, "none");
    }

    #[test]
    fn replies(rt: HostRuntime) -> Result<(), Fail> {
        let ends = [1, 2, 512];
        let table = [
            (
                Reply::Opened {
                    kind: Kind::Ceiling,
                    limit: 8,
                },
                "open ceiling 8",
            ),
            (
                Reply::Opened {
                    kind: Kind::Middle,
                    limit: 3,
                },
                "open middle 3",
            ),
            (
                Reply::Opened {
                    kind: Kind::Even { length: 2 },
                    limit: 8,
                },
                "open even 2 8",
            ),
            (Reply::Held(0), "held 0"),
            (Reply::Held(512), "held 512"),
            (Reply::Settled(2), "settled 2"),
            (
                Reply::Divided {
                    weight: 0,
                    ends: &ends[0..2],
                },
                "spans 2 weight 0 ends 1 2",
            ),
            (
                Reply::Divided {
                    weight: u64::MAX,
                    ends: &ends,
                },
                "spans 3 weight 18446744073709551615 ends 1 2 512",
            ),
            (
                Reply::Exact {
                    spans: 1,
                    weight: 3,
                },
                "exact 1 weight 3",
            ),
            (Reply::Refused(Refusal::Full), "refused 1"),
            (Reply::Refused(Refusal::NotUnderstood), "refused 14"),
        ];
        for (reply, text) in table {
            let shown = format!(in rt.alloc(); "{reply}")?;
            assert_eq!(rt; shown.as_str(), text);
        }
        Ok(())
    }
}
