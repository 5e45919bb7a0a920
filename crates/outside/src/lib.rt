// What is public for whoever builds on these libraries, and called by no crate here but its own: called by its public name. Which lines are
// handed on no contract says, so `each_line` stands beside the form that passes over the empty ones.
#![tactic(auto)]

#[cfg(test)]
mod tests {
    use input::{Line, each_line, each_nonempty_line};
    use std::io;
    use writing::bytes::put_run;

    #[test]
    fn a_run_is_the_word_again_and_again(rt: HostRuntime) {
        let mut part = [255u8; 12];
        put_run(&mut part, 3, 0x0403_0201);
        assert_eq!(rt; part, [1, 2, 3, 4, 1, 2, 3, 4, 1, 2, 3, 4]);
    }

    // Of each line that was handed on its number and its length, a hexadecimal digit each.
    #[derive(Drop)]
    struct Seen {
        numbers: u64,
        lengths: u64,
    }

    impl Seen {
        fn take(&mut self, line: Line) -> io::Result<()> {
            self.numbers = self.numbers.wrapping_mul(16).wrapping_add(line.number);
            self.lengths = self
                .lengths
                .wrapping_mul(16)
                .wrapping_add(line.bytes.len() as u64);
            Ok(())
        }
    }

    const TEXT: &[u8] = b"ab\n\n\nc";

    #[test]
    fn an_empty_line_is_handed_on(rt: HostRuntime) {
        let mut seen = Seen {
            numbers: 0,
            lengths: 0,
        };
        assert!(rt; each_line(TEXT, |line| seen.take(line)).is_ok());
        assert_eq!(rt; seen.numbers, 0x1234);
        assert_eq!(rt; seen.lengths, 0x2001);
    }

    #[test]
    fn an_empty_line_is_counted_and_passed_over(rt: HostRuntime) {
        let mut seen = Seen {
            numbers: 0,
            lengths: 0,
        };
        assert!(rt; each_nonempty_line(TEXT, |line| seen.take(line)).is_ok());
        assert_eq!(rt; seen.numbers, 0x14);
        assert_eq!(rt; seen.lengths, 0x21);
    }
}
