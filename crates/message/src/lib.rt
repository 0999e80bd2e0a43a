// CoAP messages (RFC 7252): a reader that copies nothing, and a writer over a lent buffer.
#![tactic(auto)]

pub mod fault;
pub mod header;
mod nibble;
pub mod option;
pub mod reader;
pub mod writer;

// The most bytes that a datagram may have.
pub const MAX_DATAGRAM: usize = 480;

// The byte between the options and a payload.
pub(crate) const PAYLOAD_MARKER: u8 = 0xFF;

#[cfg(test)]
mod tests {
    use crate::fault::*;
    use crate::header::*;
    use crate::option::MessageOption;
    use crate::reader::Reader;
    use crate::writer::*;
    use std::test::Fail;

    // The two Path options of a GET, and that nothing follows them.
    #[test]
    fn reads_paths(rt: HostRuntime) -> Result<(), Fail> {
        let datagram = [0x41, 0x01, 0x12, 0x34, 0xA1, 0xB1, 0x62, 0x01, 0x37];
        let (header, mut reader) = Reader::open(&datagram)?;
        assert_eq!(rt; header.kind, MessageType::Con);
        assert_eq!(rt; header.code.class(), 0);
        assert_eq!(rt; header.id, 4660);
        assert_eq!(rt; header.token, [0xA1].as_slice());
        for place in [6, 8] {
            match reader.next()? {
                Some(MessageOption::Path(field)) => assert_eq!(rt; field.place, place),
                _ => return Err(Fail::new("no path")),
            }
        }
        assert!(rt; reader.next()?.is_none());
        assert_eq!(rt; reader.payload()?.len(), 0);
        Ok(())
    }

    // Types, codes and kinds of options as text.
    #[test]
    fn names_and_prints(rt: HostRuntime) -> Result<(), Fail> {
        let heap = rt.alloc();
        assert_eq!(rt; MessageType::Ack.to_string(heap)?.as_str(), "ACK");
        assert_eq!(rt; Code(69).to_string(heap)?.as_str(), "2.05");
        assert_eq!(rt; Code(140).to_string(heap)?.as_str(), "4.12");
        let datagram = [0x40, 0x01, 0x12, 0x34, 0xB1, 0x62];
        let (_header, mut reader) = Reader::open(&datagram)?;
        let option = reader.next()?.ok_or("no option")?;
        assert_eq!(rt; option.kind_name(), "Path");
        Ok(())
    }

    // A fault in each part of a datagram, with its cause and place.
    #[test]
    fn reports_faults(rt: HostRuntime) -> Result<(), Fail> {
        for (datagram, cause, place) in [
            (&[0x49, 0x00, 0x00, 0x00][..], 1, 0),
            (&[0x43, 0x00, 0x00, 0x00, 0xAA][..], 2, 1),
            (&[0x42, 0x01, 0x00, 0x00, 0xAA][..], 3, 5),
            (&[0x40, 0x01, 0x00, 0x00, 0xDF][..], 4, 4),
            (&[0x40, 0x01, 0x00, 0x00, 0xED, 0xFE, 0xF3][..], 5, 7),
            (&[0x40, 0x01, 0x00, 0x00, 0xE1, 0xFE, 0xF3][..], 6, 4),
            (&[0x40, 0x01, 0x00, 0x00, 0xFF][..], 7, 4),
        ] {
            let fault = first_fault(datagram).ok_or("no fault")?;
            assert_eq!(rt; fault.cause(), cause);
            assert_eq!(rt; fault.place(), place);
        }
        Ok(())
    }

    fn first_fault(datagram: &[u8]) -> Option<MessageFault> {
        match Reader::open(datagram) {
            Err(Rejection::Fault(fault)) => Some(fault),
            Err(_) => None,
            Ok((_, reader)) => reader.payload().err(),
        }
    }

    // The writer's refusals in their order, and what it writes.
    #[test]
    fn writes_and_refuses(rt: HostRuntime) -> Result<(), Fail> {
        let mut buffer = [0u8; 16];
        let mut writer = Writer::new(&mut buffer);
        assert_eq!(rt; writer.option(11, b"b"), Err(WriteError::OutOfOrder));
        assert_eq!(rt;
            writer.start(MessageType::Ack, Code(0), 1, &[0; 9]),
            Err(WriteError::TokenTooLong)
        );
        assert_eq!(rt;
            writer.start(MessageType::Ack, Code(0), 1, &[1]),
            Err(WriteError::EmptyMessage)
        );
        writer.start(MessageType::Ack, Code(69), 0x1234, &[0xA1])?;
        writer.option(14, &[0x3B])?;
        assert_eq!(rt; writer.option(11, b"b"), Err(WriteError::OutOfOrder));
        assert_eq!(rt; writer.payload(b"too long a body"), Err(WriteError::NoRoom));
        writer.payload(b"anna")?;
        assert_eq!(rt; writer.len(), 13);
        assert_eq!(rt;
            &buffer[0..13],
            [
                0x61, 0x45, 0x12, 0x34, 0xA1, 0xD1, 0x01, 0x3B, 0xFF, 0x61, 0x6E, 0x6E, 0x61,
            ]
            .as_slice()
        );
        Ok(())
    }
}
