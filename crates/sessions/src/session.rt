// Whole sessions of a server over the office's stacks.
ghost use Rattle.std.specs.Prelude.{ℕ, Ok, Err};
ghost use Rattle.calls.specs.Model.{calls_of, served_of};
ghost use Rattle.serving.specs.Sessions.{Session};
ghost use Rattle.office.specs.Stacks.{office_meaning, plots_meaning};
ghost use Rattle.sessions.specs.Examples.{WorkedExamples};
ghost use Rattle.sessions.specs.Sessions.{office_over, plots_over};

use calls::answer::Served;
use calls::call::Call;
use office::{office_stack, plots_stack};
use resources::board::PlotRecord;
use resources::store::FileRecord;
use serving::session::session;
use std::alloc::{AllocError, Global};

// A server that is made over the office's stack, over these tables, answers the calls in their order: each change is
// made once, and no answer's age is hidden. (The two numbers name the lenders of the tables.) The worked examples say
// what a server over that stack answers. Table of plots and table of files are no struct of two: a host lends each by itself.
pub fn office_session(
    plots: &mut [PlotRecord],
    files: &mut [FileRecord],
    calls: &[Call<'_>],
    heap: Global,
) -> Result<Vec<Served>, AllocError>
    ensures session { (a : ℕ) × ((b : ℕ) × elim result [ Ok answers ↦ Session office_meaning (office_over a b plots.old files.old) (calls_of 320 calls.now) (served_of answers.items) | Err _ ↦ Unit {0} ]) }
    ensures examples { WorkedExamples }
{
    let stack = office_stack(plots, files);
    session(stack, calls, heap)
}

// The same over the stack that shows the plots alone. As `office_session`, it is `session` over a stack that is made first.
pub fn plots_session(
    plots: &mut [PlotRecord],
    files: &mut [FileRecord],
    calls: &[Call<'_>],
    heap: Global,
) -> Result<Vec<Served>, AllocError>
    ensures { (a : ℕ) × ((b : ℕ) × elim result [ Ok answers ↦ Session plots_meaning (plots_over a b plots.old files.old) (calls_of 320 calls.now) (served_of answers.items) | Err _ ↦ Unit {0} ]) }
{
    let stack = plots_stack(plots, files);
    session(stack, calls, heap)
}

#[cfg(test)]
mod tests {
    use super::*;
    use calls::call::Arrival;
    use std::test::Fail;

    // A GET of plot 7 by peer 1, and a tally: the plot is free, and no change was asked for.
    fn reads_a_plot(datagram: &[u8]) -> [Call<'_>; 2] {
        let arrival = Arrival {
            moment: 0,
            peer: 1,
            datagram,
        };
        [Call::Arrival(arrival), Call::Tally]
    }

    #[test]
    fn serves_the_office(rt: HostRuntime) -> Result<(), Fail> {
        let mut plots = [PlotRecord::vacant(); 8];
        let mut files = [FileRecord::unused(); 8];
        let datagram = [0x41, 0x01, 0x12, 0x34, 0xA1, 0xB1, 0x62, 0x01, 0x37];
        let calls = reads_a_plot(&datagram);
        let answers = office_session(&mut plots, &mut files, &calls, rt.alloc())?;
        match answers.as_slice() {
            [Served::Reply(reply), Served::Tallied(counts)] => {
                assert_eq!(rt; reply.as_slice(), [0x61, 0x45, 0x12, 0x34, 0xA1].as_slice());
                assert_eq!(rt; counts.done, 0);
                Ok(())
            }
            _ => Err(Fail::new("other answers")),
        }
    }

    #[test]
    fn serves_the_plots_alone(rt: HostRuntime) -> Result<(), Fail> {
        let mut plots = [PlotRecord::vacant(); 8];
        let mut files = [FileRecord::unused(); 8];
        let datagram = [0x40, 0x01, 0x00, 0x01, 0xB1, 0x37];
        let calls = reads_a_plot(&datagram);
        let answers = plots_session(&mut plots, &mut files, &calls, rt.alloc())?;
        match answers.as_slice() {
            [Served::Reply(reply), Served::Tallied(counts)] => {
                assert_eq!(rt; reply.as_slice(), [0x60, 0x45, 0x00, 0x01].as_slice());
                assert_eq!(rt; counts.done, 0);
                Ok(())
            }
            _ => Err(Fail::new("other answers")),
        }
    }

    // A host's own table on the heap.
    fn table(heap: Global) -> Result<Vec<FileRecord>, AllocError> {
        let mut files = Vec::new(heap);
        files.push(FileRecord::unused())?;
        Ok(files)
    }

    #[test]
    fn lists_records_and_answers(rt: HostRuntime) -> Result<(), Fail> {
        let mut plots = [PlotRecord::vacant(); 8];
        let mut files = table(rt.alloc())?;
        let datagram = [0x40, 0x01, 0x00, 0x01, 0xB1, 0x78];
        let calls = reads_a_plot(&datagram);
        let mut answers = Vec::new(rt.alloc());
        for answer in &office_session(&mut plots, &mut files, &calls, rt.alloc())? {
            answers.push(*answer)?;
        }
        match answers.as_slice() {
            [Served::Reply(reply), Served::Tallied(_)] => {
                assert_eq!(rt; reply.as_slice(), [0x60, 0x84, 0x00, 0x01].as_slice());
                Ok(())
            }
            _ => Err(Fail::new("other answers")),
        }
    }
}
