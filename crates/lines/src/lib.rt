// The lines that a program prints for the answers of a server.
#![tactic(auto)]

mod answer;
mod notice;
mod piece;

pub use answer::push_answer;
pub use notice::{Notice, push_notice};

#[cfg(test)]
mod tests {
    use super::*;
    use calls::answer::{Counts, Refusal, Served, Silence};
    use register::bytes::Bytes;
    use std::test::Fail;

    #[test]
    fn one_line_for_an_answer(rt: HostRuntime) -> Result<(), Fail> {
        let reply = Bytes::new(&[0x60, 0x45, 0x0a, 0xff])?;
        let counts = Counts {
            done: 1,
            repeated: 20,
            silenced: 0,
            dropped: 4_294_967_295,
        };
        let mut out = Vec::new(rt.alloc());
        push_answer(&mut out, &Served::Reply(reply))?;
        push_answer(&mut out, &Served::Silent(Silence::Copy))?;
        push_answer(&mut out, &Served::Refused(Refusal::Datagram))?;
        push_answer(&mut out, &Served::Tallied(counts))?;
        assert_eq!(rt;
            out.as_slice(),
            b"reply 60450AFF\nsilent 15\nrefused 3\ntally 1 20 0 4294967295\n".as_slice()
        );
        Ok(())
    }

    #[test]
    fn one_line_for_a_notice(rt: HostRuntime) -> Result<(), Fail> {
        let mut out = Vec::new(rt.alloc());
        for notice in [
            Notice::Stack(2),
            Notice::Damaged,
            Notice::NoHead,
            Notice::End,
        ] {
            push_notice(&mut out, notice)?;
        }
        assert_eq!(rt;
            out.as_slice(),
            b"pile 2\ndamaged\nno head\nend\n".as_slice()
        );
        Ok(())
    }

    #[test]
    fn shows_a_notice(rt: HostRuntime) -> Result<(), Fail> {
        let shown = format!(in rt.alloc();
            "{}, {}, {}, {}",
            Notice::Stack(2),
            Notice::Damaged,
            Notice::NoHead,
            Notice::End
        )?;
        assert_eq!(rt; shown.as_str(), "pile 2, damaged, no head, end");
        Ok(())
    }
}
