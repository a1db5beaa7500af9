// What no clause says of `programs::read_input`: that it reads at all, at a concrete reader, and that a read that fails in
// mid-stream is an error, not the end of the input.
#![tactic(auto)]

#[cfg(test)]
mod tests {
    use programs::read_input;
    use std::io;
    use std::io::{Error, ErrorKind, Read};
    use std::test::Fail;

    // Gives `task=`, and fails from then on.
    #[derive(Drop)]
    struct Failing {
        has_given: bool,
    }

    impl Read for Failing {
        fn read(&mut self, buf: &mut [u8]) -> io::Result<usize> {
            if self.has_given || buf.len() < 5 {
                return Err(Error::from(ErrorKind::TimedOut));
            }
            self.has_given = true;
            buf[..5].copy_from_slice(b"task=");
            Ok(5)
        }
    }

    #[test]
    fn reads_a_short_input(rt: HostRuntime) -> Result<(), Fail> {
        let bytes = read_input(rt.alloc(), b"task=1\n\xff".as_slice())?;
        assert_eq!(rt; bytes.as_slice(), b"task=1\n\xff".as_slice());
        Ok(())
    }

    #[test]
    fn takes_the_first_bytes(rt: HostRuntime) -> Result<(), Fail> {
        let first = vec![in rt.alloc(); b'a'; 65536]?;
        let mut input = first.clone()?;
        input.push(b'b')?;
        let bytes = read_input(rt.alloc(), input.as_slice())?;
        assert_eq!(rt; bytes.as_slice(), first.as_slice());
        Ok(())
    }

    #[test]
    fn fails_where_a_read_fails(rt: HostRuntime) -> Result<(), Fail> {
        let result = read_input(rt.alloc(), Failing { has_given: false });
        assert!(rt; matches!(&result, Err(e) if e.kind() == ErrorKind::TimedOut));
        Ok(())
    }
}
