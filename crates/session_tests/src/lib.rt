//! Whole sessions through the library, with what they must be answered.
#![tactic(auto)]

#[cfg(test)]
mod tests {
    use reply::Reply;
    use session::{Listener, conduct};
    use std::alloc::Global;
    use std::io;
    use std::process::Abort;
    use std::test::Fail;

    #[derive(Drop)]
    struct Transcript {
        heap: Global,
        text: String,
    }

    impl Listener for Transcript {
        ghost hears = { λ before text after. Unit {0} };

        fn hear(&mut self, reply: Reply<'_>) -> io::Result<()> {
            let line = format!(in self.heap; "{reply}\n")?;
            self.text.push_str(line.as_str())?;
            Ok(())
        }
    }

    // Each session of a table, with the text that it must be answered.
    fn answered(rt: &impl Abort, heap: Global, table: &[(&str, &str)]) -> Result<(), Fail> {
        for (input, expected) in table {
            let mut transcript = Transcript {
                heap,
                text: String::new(heap),
            };
            conduct(input.as_bytes(), &mut transcript)?;
            assert_eq!(rt; transcript.text.as_str(), *expected, "{input}");
        }
        Ok(())
    }

    // Ties and equal readings: the fewest spans, and the earlier cut.
    #[test]
    fn ties(rt: HostRuntime) -> Result<(), Fail> {
        let table = [
            (
                "open middle 8\ntake 0\ntake 5\ntake 10\nsettle\ndivide 2\nexact 2\ntake 15\ntake 20\nsettle\ndivide 1\ndivide 2\ndivide 3\ndivide 4\ndivide 5\ndivide 6\ndivide 7\ndivide 8\nexact 1\nexact 2\nexact 3\nexact 4\nexact 5\nexact 6\nexact 7\nexact 8\nwipe\ntake 0\ntake 1\ntake 2\ntake 3\ntake 4\ntake 5\ntake 6\ntake 7\ntake 8\ntake 9\nsettle\ndivide 1\ndivide 2\ndivide 3\ndivide 4\ndivide 5\ndivide 6\ndivide 7\ndivide 8\ndrop\ndrop\nsettle\ndivide 1\ndivide 2\ndivide 3\ndivide 4\ndivide 5\ndivide 6\ndivide 7\ndivide 8\n",
                "open middle 8\nheld 1\nheld 2\nheld 3\nsettled 3\nspans 2 weight 5 ends 1 3\nexact 2 weight 5\nheld 4\nheld 5\nsettled 5\nspans 1 weight 30 ends 5\nspans 2 weight 15 ends 2 5\nspans 3 weight 10 ends 1 2 5\nspans 4 weight 5 ends 1 2 3 5\nspans 5 weight 0 ends 1 2 3 4 5\nspans 5 weight 0 ends 1 2 3 4 5\nspans 5 weight 0 ends 1 2 3 4 5\nspans 5 weight 0 ends 1 2 3 4 5\nexact 1 weight 30\nexact 2 weight 15\nexact 3 weight 10\nexact 4 weight 5\nexact 5 weight 0\nrefused 6\nrefused 6\nrefused 6\nheld 0\nheld 1\nheld 2\nheld 3\nheld 4\nheld 5\nheld 6\nheld 7\nheld 8\nheld 9\nheld 10\nsettled 10\nspans 1 weight 25 ends 10\nspans 2 weight 12 ends 5 10\nspans 3 weight 8 ends 3 6 10\nspans 4 weight 6 ends 1 4 7 10\nspans 5 weight 5 ends 1 2 4 7 10\nspans 6 weight 4 ends 1 2 3 4 7 10\nspans 7 weight 3 ends 1 2 3 4 5 7 10\nspans 8 weight 2 ends 1 2 3 4 5 6 7 10\nheld 9\nheld 8\nsettled 8\nspans 1 weight 16 ends 8\nspans 2 weight 8 ends 3 8\nspans 3 weight 5 ends 2 5 8\nspans 4 weight 4 ends 1 2 5 8\nspans 5 weight 3 ends 1 2 3 5 8\nspans 6 weight 2 ends 1 2 3 4 5 8\nspans 7 weight 1 ends 1 2 3 4 5 6 8\nspans 8 weight 0 ends 1 2 3 4 5 6 7 8\n",
            ),
            (
                "open even 3 8\ntake 0\ntake 0\ntake 0\ntake 0\ntake 0\ntake 0\ntake 0\ntake 0\ntake 0\ntake 0\nsettle\ndivide 0\ndivide 1\ndivide 2\ndivide 3\ndivide 4\ndivide 5\ndivide 6\ndivide 7\ndivide 8\ndivide 9\nexact 0\nexact 1\nexact 2\nexact 3\nexact 4\nexact 5\nexact 6\nexact 7\nexact 8\nexact 9\n",
                "open even 3 8\nheld 1\nheld 2\nheld 3\nheld 4\nheld 5\nheld 6\nheld 7\nheld 8\nheld 9\nheld 10\nsettled 10\nrefused 6\nspans 1 weight 49 ends 10\nspans 2 weight 8 ends 5 10\nspans 3 weight 1 ends 3 6 10\nspans 3 weight 1 ends 3 6 10\nspans 3 weight 1 ends 3 6 10\nspans 3 weight 1 ends 3 6 10\nspans 3 weight 1 ends 3 6 10\nspans 3 weight 1 ends 3 6 10\nrefused 6\nrefused 6\nexact 1 weight 49\nexact 2 weight 8\nexact 3 weight 1\nexact 4 weight 2\nexact 5 weight 5\nexact 6 weight 12\nexact 7 weight 19\nexact 8 weight 26\nrefused 6\n",
            ),
            (
                "open middle 5\ntake 65535\ntake 65535\ntake 65535\ntake 65535\ntake 65535\ntake 65535\ntake 65535\ntake 65535\ntake 65535\nsettle\ndivide 0\ndivide 1\ndivide 2\ndivide 3\ndivide 4\ndivide 5\ndivide 6\nexact 0\nexact 1\nexact 2\nexact 3\nexact 4\nexact 5\nexact 6\n",
                "open middle 5\nheld 1\nheld 2\nheld 3\nheld 4\nheld 5\nheld 6\nheld 7\nheld 8\nheld 9\nsettled 9\nrefused 6\nspans 1 weight 0 ends 9\nspans 1 weight 0 ends 9\nspans 1 weight 0 ends 9\nspans 1 weight 0 ends 9\nspans 1 weight 0 ends 9\nrefused 6\nrefused 6\nexact 1 weight 0\nexact 2 weight 0\nexact 3 weight 0\nexact 4 weight 0\nexact 5 weight 0\nrefused 6\n",
            ),
        ];
        answered(&rt, rt.alloc(), &table)
    }

    // One reading, more spans than readings, and limits as they are taken.
    #[test]
    fn edges(rt: HostRuntime) -> Result<(), Fail> {
        let table = [
            (
                "open middle 3\nsettle\ndivide 1\nexact 1\ntake 65535\ndivide 1\nsettle\ndivide 1\ndivide 3\ndivide 4\nexact 1\nexact 2\nsettle\ndrop\ndivide 1\ndrop\n",
                "open middle 3\nrefused 5\nrefused 5\nrefused 5\nheld 1\nrefused 7\nsettled 1\nspans 1 weight 0 ends 1\nspans 1 weight 0 ends 1\nrefused 6\nexact 1 weight 0\nrefused 6\nsettled 1\nheld 0\nrefused 5\nrefused 5\n",
            ),
            (
                "open ceiling 8\ntake 1\ntake 4\ntake 9\nsettle\ndivide 1\ndivide 2\ndivide 3\ndivide 4\ndivide 5\ndivide 6\ndivide 7\ndivide 8\ndivide 9\nexact 0\nexact 1\nexact 2\nexact 3\nexact 4\nexact 5\nexact 6\nexact 7\nexact 8\nexact 9\n",
                "open ceiling 8\nheld 1\nheld 2\nheld 3\nsettled 3\nspans 1 weight 13 ends 3\nspans 2 weight 3 ends 2 3\nspans 3 weight 0 ends 1 2 3\nspans 3 weight 0 ends 1 2 3\nspans 3 weight 0 ends 1 2 3\nspans 3 weight 0 ends 1 2 3\nspans 3 weight 0 ends 1 2 3\nspans 3 weight 0 ends 1 2 3\nrefused 6\nrefused 6\nexact 1 weight 13\nexact 2 weight 3\nexact 3 weight 0\nrefused 6\nrefused 6\nrefused 6\nrefused 6\nrefused 6\nrefused 6\n",
            ),
            (
                "open middle 0\ntake 1\ntake 2\nsettle\ndivide 1\ndivide 2\nexact 1\nexact 2\n",
                "open middle 1\nheld 1\nheld 2\nsettled 2\nspans 1 weight 1 ends 2\nrefused 6\nexact 1 weight 1\nrefused 6\n",
            ),
            (
                "open ceiling 999999\ntake 0\ntake 1\ntake 2\ntake 3\ntake 4\ntake 5\ntake 6\ntake 7\ntake 8\ntake 9\ntake 10\ntake 11\nsettle\ndivide 8\ndivide 9\nexact 8\n",
                "open ceiling 8\nheld 1\nheld 2\nheld 3\nheld 4\nheld 5\nheld 6\nheld 7\nheld 8\nheld 9\nheld 10\nheld 11\nheld 12\nsettled 12\nspans 8 weight 4 ends 1 2 3 4 6 8 10 12\nrefused 6\nexact 8 weight 4\n",
            ),
            (
                "open even 512 8\ntake 1\ntake 2\ntake 3\nsettle\ndivide 1\ndivide 2\nexact 2\nexact 3\n",
                "open even 512 8\nheld 1\nheld 2\nheld 3\nsettled 3\nspans 1 weight 259081 ends 3\nspans 1 weight 259081 ends 3\nexact 2 weight 521221\nexact 3 weight 783363\n",
            ),
            (
                "open even 1 8\ntake 9\ntake 8\ntake 7\ntake 6\ntake 5\nsettle\ndivide 8\ndivide 3\nexact 3\nexact 5\nexact 6\n",
                "open even 1 8\nheld 1\nheld 2\nheld 3\nheld 4\nheld 5\nsettled 5\nspans 5 weight 0 ends 1 2 3 4 5\nspans 3 weight 2 ends 1 3 5\nexact 3 weight 2\nexact 5 weight 0\nrefused 6\n",
            ),
            (
                "open ceiling 9\ntake 2\ntake 1\ntake 5\ndivide 1\nsettle\ndivide 2\nexact 1\nwipe\n",
                "open ceiling 8\nheld 1\nrefused 3\nheld 2\nrefused 7\nsettled 2\nspans 2 weight 0 ends 1 2\nexact 1 weight 3\nheld 0\n",
            ),
        ];
        answered(&rt, rt.alloc(), &table)
    }

    // Withdrawals down into the settled part and back up, with refused calls between.
    #[test]
    fn withdrawals(rt: HostRuntime) -> Result<(), Fail> {
        let table = [
            (
                "open ceiling 5\ntake 1\ntake 3\ntake 3\ntake 8\ntake 10\ntake 15\nsettle\ndivide 3\ndrop\ndivide 3\ntake 11\ndivide 3\nexact 2\nsettle\ndivide 3\ndrop\ndrop\ndrop\ndivide 2\nexact 2\ntake 30\ntake 31\ntake 40\nsettle\ndivide 3\ndivide 5\nwipe\ndivide 1\ndrop\ntake 1\ndivide 1\nsettle\ndivide 5\ntake 1\ntake 2\nsettle\ndivide 5\ndrop\ndrop\ndivide 1\ndrop\ndrop\nsettle\n",
                "open ceiling 5\nheld 1\nheld 2\nheld 3\nheld 4\nheld 5\nheld 6\nsettled 6\nspans 3 weight 4 ends 3 5 6\nheld 5\nspans 3 weight 2 ends 1 3 5\nheld 6\nrefused 7\nrefused 7\nsettled 6\nspans 3 weight 3 ends 3 4 6\nheld 5\nheld 4\nheld 3\nspans 2 weight 0 ends 1 3\nexact 2 weight 0\nheld 4\nheld 5\nheld 6\nsettled 6\nspans 3 weight 3 ends 3 5 6\nspans 5 weight 0 ends 1 3 4 5 6\nheld 0\nrefused 5\nrefused 5\nheld 1\nrefused 7\nsettled 1\nspans 1 weight 0 ends 1\nheld 2\nheld 3\nsettled 3\nspans 2 weight 0 ends 2 3\nheld 2\nheld 1\nspans 1 weight 0 ends 1\nheld 0\nrefused 5\nrefused 5\n",
            ),
            (
                "open middle 4\ntake 1\ntake 3\ntake 3\ntake 8\ntake 10\ntake 15\ntake 40\ntake 41\nsettle\ndivide 4\ndrop\ndrop\ndrop\ndivide 4\ntake 8\ntake 9\ntake 9\nsettle\ndivide 4\nexact 4\ndrop\ndrop\ndrop\ndrop\ndrop\ndrop\ndivide 4\nexact 2\ntake 3\nsettle\ndivide 2\n",
                "open middle 4\nheld 1\nheld 2\nheld 3\nheld 4\nheld 5\nheld 6\nheld 7\nheld 8\nsettled 8\nspans 4 weight 5 ends 3 5 6 8\nheld 7\nheld 6\nheld 5\nspans 4 weight 0 ends 1 3 4 5\nrefused 3\nrefused 3\nrefused 3\nsettled 5\nspans 4 weight 0 ends 1 3 4 5\nexact 4 weight 0\nheld 4\nheld 3\nheld 2\nheld 1\nheld 0\nrefused 5\nrefused 5\nrefused 5\nheld 1\nsettled 1\nspans 1 weight 0 ends 1\n",
            ),
            (
                "open even 2 3\ndrop\ndivide 1\nexact 1\nsettle\ntake 65536\ntake 5\ndivide 1\nnonsense\ntake 4\nexact 2\ndivide 9\nsettle\ntake 999999\ndivide 0\ndivide 4\ndivide 999999\nexact 3\ndivide 3\ntake 1\ndrop\ntake 65536\ndivide 3\ndrop\ndivide 2\nsettle\nsettle\ndivide 2\n\ndivide 1\nexact 2\nexact 1\nwipe\nwipe\ndrop\ndivide 1\nsettle\n",
                "open even 2 3\nrefused 5\nrefused 5\nrefused 5\nrefused 5\nrefused 2\nheld 1\nrefused 7\nrefused 14\nheld 2\nrefused 7\nrefused 7\nsettled 2\nrefused 2\nrefused 6\nrefused 6\nrefused 6\nrefused 6\nspans 1 weight 0 ends 2\nheld 3\nheld 2\nrefused 2\nspans 1 weight 0 ends 2\nheld 1\nspans 1 weight 1 ends 1\nsettled 1\nsettled 1\nspans 1 weight 1 ends 1\nrefused 14\nspans 1 weight 1 ends 1\nrefused 6\nexact 1 weight 1\nheld 0\nheld 0\nrefused 5\nrefused 5\nrefused 5\n",
            ),
            (
                "open ceiling 2\ndrop\nsettle\ndivide 1\nexact 1\ndivide 0\nexact 0\ndivide 9\nexact 9\ntake 65536\ntake 9\ntake 8\ntake 65536\ndivide 1\nexact 1\ndivide 0\nexact 0\ndivide 3\nexact 3\nsettle\ndivide 0\nexact 0\ndivide 3\nexact 3\nexact 2\ndivide 2\nwipe\ndrop\nsettle\ndivide 1\nexact 1\n",
                "open ceiling 2\nrefused 5\nrefused 5\nrefused 5\nrefused 5\nrefused 5\nrefused 5\nrefused 5\nrefused 5\nrefused 2\nheld 1\nrefused 3\nrefused 2\nrefused 7\nrefused 7\nrefused 7\nrefused 7\nrefused 7\nrefused 7\nsettled 1\nrefused 6\nrefused 6\nrefused 6\nrefused 6\nrefused 6\nspans 1 weight 0 ends 1\nheld 0\nrefused 5\nrefused 5\nrefused 5\nrefused 5\n",
            ),
        ];
        answered(&rt, rt.alloc(), &table)
    }

    // An even weighing that cannot be.
    #[test]
    fn misfits(rt: HostRuntime) -> Result<(), Fail> {
        let table = [
            (
                "open even 0 4\ntake 1\ntake 65536\ndrop\nwipe\nsettle\ndivide 1\nexact 1\ntake 0\n",
                "open even 0 4\nrefused 4\nrefused 4\nrefused 5\nheld 0\nrefused 5\nrefused 5\nrefused 5\nrefused 4\n",
            ),
            (
                "open even 513 0\ntake 1\ndrop\nwipe\nsettle\ndivide 1\nexact 1\n",
                "open even 513 1\nrefused 4\nrefused 5\nheld 0\nrefused 5\nrefused 5\nrefused 5\n",
            ),
        ];
        answered(&rt, rt.alloc(), &table)
    }

    // Sessions without a last new line, without lines, and with a first line that opens nothing.
    #[test]
    fn ends_of_input(rt: HostRuntime) -> Result<(), Fail> {
        let table = [
            (
                "open ceiling 3\ntake 4\nsettle\ndivide 1",
                "open ceiling 3\nheld 1\nsettled 1\nspans 1 weight 0 ends 1\n",
            ),
            (
                "open ceiling 3\ntake 4\n\n",
                "open ceiling 3\nheld 1\nrefused 14\n",
            ),
            ("\n", "refused 14\n"),
            ("", ""),
            ("open middle 3", "open middle 3\n"),
            ("take 1\ntake 1\nopen ceiling 3\n", "refused 14\n"),
            ("open\ntake 1\nopen ceiling 3\n", "refused 14\n"),
            ("open ceiling 3\r\ntake 1\nopen ceiling 3\n", "refused 14\n"),
            ("open even  3 3\ntake 1\nopen ceiling 3\n", "refused 14\n"),
            (
                "open middle 3                                                                                \ntake 1\nopen ceiling 3\n",
                "refused 14\n",
            ),
        ];
        answered(&rt, rt.alloc(), &table)
    }
}
