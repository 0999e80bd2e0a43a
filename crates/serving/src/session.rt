// Lists of calls, answered with the bytes of their replies.
ghost use Rattle.std.specs.Prelude.{◌≡◌, ◌≤◌, length, Ok, Err};
ghost use Rattle.register.specs.Model.{bytes_of};
ghost use Rattle.server.specs.Calls.{Arrival as Arriving};
ghost use Rattle.server.specs.Serving.{answer, next, run, end};
ghost use Rattle.server.specs.Requests.{coap};
ghost use Rattle.calls.specs.Model.{call_of, calls_of, served_as, served_of};
ghost use Rattle.serving.specs.View.{view};
ghost use Rattle.serving.specs.Sessions.{KeepsAll, Session};

use crate::reply::MIN_REPLY;
use crate::state::Server;
use calls::answer::{Answer, Served};
use calls::call::{Arrival, Call};
use register::bytes::Bytes;
use register::resource::Resource;
use std::alloc::{AllocError, Global};

// The bytes of a reply by themselves.
fn reply_bytes(bytes: &[u8]) -> Bytes<320>
    requires { length bytes.now ≤ 320 }
    ensures { bytes_of result ≡ bytes.now }
{
    Bytes::new(bytes).unwrap()
}

impl<R: Resource> Server<R> {
    // An arrival, with a buffer of 320 bytes for the reply.
    fn receive(&mut self, arrival: &Arrival<'_>) -> Served
        ensures answer { served_as result ≡ answer R.Resource.meaning coap (view R.Resource.meaning R.Resource.state self.old) (Arriving arrival.now.moment arrival.now.peer arrival.now.datagram.now 320) }
        ensures next { view R.Resource.meaning R.Resource.state self.new ≡ next R.Resource.meaning coap (view R.Resource.meaning R.Resource.state self.old) (Arriving arrival.now.moment arrival.now.peer arrival.now.datagram.now 320) }
    {
        let mut buffer = [0u8; MIN_REPLY];
        let outcome = self.arrive(arrival.moment, arrival.peer, arrival.datagram, &mut buffer);
        match outcome.answer {
            Answer::Reply(n) => Served::Reply(reply_bytes(&buffer[0..n])),
            Answer::Silent(why) => Served::Silent(why),
            Answer::Refused(why) => Served::Refused(why),
        }
    }

    // One call, with a buffer of 320 bytes for a reply.
    pub fn call(&mut self, call: &Call<'_>) -> Served
        ensures answer { served_as result ≡ answer R.Resource.meaning coap (view R.Resource.meaning R.Resource.state self.old) (call_of 320 call.now) }
        ensures next { view R.Resource.meaning R.Resource.state self.new ≡ next R.Resource.meaning coap (view R.Resource.meaning R.Resource.state self.old) (call_of 320 call.now) }
    {
        match call {
            Call::Arrival(arrival) => self.receive(arrival),
            Call::Tally => Served::Tallied(self.tally()),
        }
    }

    // Answers the calls in their order. Where memory is wanting, none is answered and nothing has changed. Whatever
    // calls led to this server before, the promises hold of them with these after them, for the answers that are given.
    // (A loop over room that is taken first: a `collect` could find only midway that there is none.)
    pub fn serve(&mut self, calls: &[Call<'_>], heap: Global) -> Result<Vec<Served>, AllocError>
        ensures answers { elim result [ Ok answers ↦ served_of answers.items ≡ run R.Resource.meaning coap (view R.Resource.meaning R.Resource.state self.old) (calls_of 320 calls.now) | Err _ ↦ Unit {0} ] }
        ensures next { view R.Resource.meaning R.Resource.state self.new ≡ elim result [ Ok _ ↦ end R.Resource.meaning coap (view R.Resource.meaning R.Resource.state self.old) (calls_of 320 calls.now) | Err _ ↦ view R.Resource.meaning R.Resource.state self.old ] }
        ensures promised { elim result [ Ok answers ↦ KeepsAll R.Resource.meaning (view R.Resource.meaning R.Resource.state self.old) (view R.Resource.meaning R.Resource.state self.new) (calls_of 320 calls.now) (served_of answers.items) | Err _ ↦ Unit {0} ] }
    {
        let mut answers = Vec::with_capacity(heap, calls.len())?;
        for call in calls {
            answers.push_reserved(self.call(call));
        }
        Ok(answers)
    }
}

// Makes a server over the stack and answers the calls in their order. Where the stack is sound, as its maker says, the
// promises hold of the calls, for the answers that are given.
pub fn session<R: Resource + Drop>(
    stack: R,
    calls: &[Call<'_>],
    heap: Global,
) -> Result<Vec<Served>, AllocError>
    ensures { elim result [ Ok answers ↦ (R.Resource.meaning.Sound (R.Resource.state stack) → Session R.Resource.meaning (R.Resource.state stack) (calls_of 320 calls.now) (served_of answers.items)) | Err _ ↦ Unit {0} ] }
{
    let mut server = Server::new(stack);
    server.serve(calls, heap)
}
