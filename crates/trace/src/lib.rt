// A trace: recorded calls of the server, in blocks of 512 bytes that each carry a check.
#![tactic(auto)]

pub mod block;
mod check;
pub mod reader;

#[cfg(test)]
mod tests {
    use crate::block::Block;
    use crate::reader::read_block;
    use calls::call::{Arrival, Call};
    use std::test::Fail;

    // A block that begins with `front`, goes on with zeros and ends with this check.
    fn block(front: &[u8], check: [u8; 2]) -> [u8; 512] {
        let mut bytes = [0; 512];
        for (place, byte) in bytes.iter_mut().zip(front) {
            *place = *byte;
        }
        bytes[510] = check[0];
        bytes[511] = check[1];
        bytes
    }

    #[test]
    fn reads_a_head(rt: HostRuntime) -> Result<(), Fail> {
        match read_block(&block(&[1, 1], [0, 3])) {
            Ok(Block::Head(stack)) => {
                assert_eq!(rt; stack.number(), 1);
                Ok(())
            },
            _ => Err(Fail::new("no head")),
        }
    }

    #[test]
    fn reads_an_arrival(rt: HostRuntime) {
        let front = [2, 0, 4, 0, 0, 0, 1, 0, 0, 0, 0, 0, 0, 0, 0, 0x40, 0, 0, 5];
        let arrival = Arrival {
            moment: 0,
            peer: 1,
            datagram: &[0x40, 0, 0, 5],
        };
        assert_eq!(rt;
            read_block(&block(&front, [0x04, 0x74])),
            Ok(Block::Call(Call::Arrival(arrival)))
        );
    }

    #[test]
    fn reads_a_tally(rt: HostRuntime) {
        assert_eq!(rt;
            read_block(&block(&[3], [0, 3])),
            Ok(Block::Call(Call::Tally))
        );
    }

    fn is_damaged(front: &[u8], check: [u8; 2]) -> bool {
        read_block(&block(front, check)).is_err()
    }

    #[test]
    fn finds_damage(rt: HostRuntime) {
        assert!(rt; !is_damaged(&[1, 2], [0, 5]));
        assert!(rt; is_damaged(&[1, 2], [0, 4]), "a wrong check");
        assert!(rt;
            is_damaged(&[1, 2], [0xFF, 0xF6]),
            "a check that is not reduced"
        );
        assert!(rt; is_damaged(&[1, 3], [0, 7]), "stack 3");
        assert!(rt; is_damaged(&[4], [0, 4]), "kind 4");
        assert!(rt; is_damaged(&[2, 1, 0xE1], [0x02, 0xA7]), "481 bytes");
        assert!(rt;
            read_block(&block(&[1, 2], [0, 5])[0..511]).is_err(),
            "511 bytes"
        );
    }
}
