// Bytes and numbers as text: hexadecimal is read and written, and decimal is written.
#![tactic(auto)]

mod decimal;
mod hex;
mod line;

pub use decimal::push_decimal;
pub use hex::{Hex, push_hex, read_hex};
pub use line::{push_line, whole_or_nothing};

#[cfg(test)]
mod tests {
    use super::*;
    use std::alloc::AllocError;
    use std::io::Write;
    use std::test::Fail;

    #[test]
    fn reads_digits_among_blanks(rt: HostRuntime) -> Result<(), Fail> {
        let bytes = read_hex(rt.alloc(), b" 4 1aF\r")?.ok_or("no bytes")?;
        assert_eq!(rt; bytes.as_slice(), [0x41, 0xaf].as_slice());
        Ok(())
    }

    #[test]
    fn reads_nothing_from_other_text(rt: HostRuntime) -> Result<(), Fail> {
        assert_eq!(rt;
            read_hex(rt.alloc(), b"41a")?,
            None,
            "an odd number of digits"
        );
        assert_eq!(rt; read_hex(rt.alloc(), b"4g")?, None, "a letter past F");
        Ok(())
    }

    #[test]
    fn appends_hex(rt: HostRuntime) -> Result<(), Fail> {
        let mut out = Vec::from_slice(rt.alloc(), b"> ")?;
        push_hex(&mut out, &[0x0a, 0xff])?;
        assert_eq!(rt; out.as_slice(), b"> 0AFF".as_slice());
        Ok(())
    }

    #[test]
    fn shows_hex(rt: HostRuntime) -> Result<(), Fail> {
        let mut out = Vec::new(rt.alloc());
        write!(out, "{}={}.", Hex(&[0x0a, 0xff]), Hex(&[]))?;
        assert_eq!(rt; out.as_slice(), b"0AFF=.".as_slice());
        Ok(())
    }

    #[test]
    fn appends_a_line(rt: HostRuntime) -> Result<(), Fail> {
        let mut out = Vec::from_slice(rt.alloc(), b"> ")?;
        push_line(&mut out, Hex(&[0x0a, 0xff]))?;
        assert_eq!(rt; out.as_slice(), b"> 0AFF\n".as_slice());
        Ok(())
    }

    #[test]
    fn takes_back_what_failed(rt: HostRuntime) -> Result<(), Fail> {
        let mut out = Vec::from_slice(rt.alloc(), b"> 0AFF")?;
        assert_eq!(rt; whole_or_nothing(&mut out, 2, Ok(7)), Ok(7));
        assert_eq!(rt; out.as_slice(), b"> 0AFF".as_slice());
        let failed: Result<u8, AllocError> = Err(AllocError);
        assert_eq!(rt; whole_or_nothing(&mut out, 2, failed), Err(AllocError));
        assert_eq!(rt; out.as_slice(), b"> ".as_slice());
        Ok(())
    }

    #[test]
    fn appends_decimals(rt: HostRuntime) -> Result<(), Fail> {
        let mut out = Vec::new(rt.alloc());
        for n in [0, 65535, u64::MAX] {
            push_decimal(&mut out, n)?;
            out.push(b' ')?;
        }
        assert_eq!(rt; out.as_slice(), b"0 65535 18446744073709551615 ".as_slice());
        Ok(())
    }
}
