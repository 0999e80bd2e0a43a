// What a datagram asks for, and whom a reply to it goes to.
#![tactic(auto)]

pub mod asked;
pub mod exchange;
pub mod request;
mod survey;

#[cfg(test)]
mod tests {
    use crate::asked::Asked;
    use crate::exchange::exchange_of;
    use crate::request::read_request;
    use calls::report::Report;
    use message::fault::Rejection;
    use register::path::{Path, Segment};
    use std::test::Fail;

    // A GET of the path b, 7.
    #[test]
    fn reads_a_path(rt: HostRuntime) -> Result<(), Fail> {
        let datagram = [0x41, 0x01, 0x12, 0x34, 0xA1, 0xB1, 0x62, 0x01, 0x37];
        let expected = Path::empty()
            .push(Segment::of_byte(b'b'))?
            .push(Segment::of_byte(b'7'))?;
        let Ok(asked) = read_request(&datagram) else {
            return Err(Fail::new("no GET"));
        };
        assert_eq!(rt; asked, Asked::Read(expected));
        let exchange = exchange_of(&datagram);
        assert!(rt; exchange.confirmable);
        assert_eq!(rt; exchange.id, 0x1234);
        assert_eq!(rt; exchange.token, [0xA1].as_slice());
        Ok(())
    }

    // An Unknown option by number and place, and a fault by cause and place.
    #[test]
    fn reports_reasons(rt: HostRuntime) -> Result<(), Fail> {
        match read_request(&[0x40, 0x01, 0x00, 0x09, 0xD1, 0x02, 0x71]) {
            Err(Report::UnknownOption(option)) => {
                assert_eq!(rt; option.number, 15);
                assert_eq!(rt; option.place, 6);
            }
            _ => return Err(Fail::new("no Unknown option")),
        }
        match read_request(&[0x49, 0x01, 0x00, 0x00]) {
            Err(Report::Unreadable(Rejection::Fault(fault))) => {
                assert_eq!(rt; fault.cause(), 1);
                assert_eq!(rt; fault.place(), 0);
                Ok(())
            }
            _ => Err(Fail::new("no fault")),
        }
    }
}
