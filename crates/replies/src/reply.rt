// What a request may be answered with, and what each answer comes to as a reply.
ghost use Rattle.std.specs.Prelude.{◌≡◌, ℕ, ◌+◌, ◌≤◌, length};
ghost use Rattle.register.specs.Model.{read_of, said_of};
ghost use Rattle.register.specs.Values.{Bytes, code_byte};
ghost use Rattle.server.specs.Replies.{Exchange, showing_to, saying_to, failing_to};
ghost use Rattle.replies.specs.Response.{Says};

use crate::response::Response;
use message::header::Code;
use register::values::{ChangeAnswer, ChangeCode, ReadAnswer, ReadCode};

// An answer that stands in a reply to any exchange.
pub trait Reply {
    // The bytes of the reply to an exchange.
    ghost bytes: { Exchange → Self → Bytes };

    // How many bytes it has at most, with a token that fits.
    ghost most: { ℕ };

    // The parts of the reply.
    fn response(&self) -> Response<'_>
        ensures says { Says result (λ x. bytes x self.now) }
        ensures short { 19 + length result.body.now ≤ most };
}

// An error, by its code alone.
impl Reply for ChangeCode {
    ghost bytes = { λ x code. failing_to x (code_byte code) };

    ghost most = { 19 };

    fn response(&self) -> Response<'_> {
        Response {
            code: Code(self.byte()),
            max_age: None,
            body: &[],
        }
    }
}

// What a GET gives: with a 2.05 its Max-Age is told.
impl Reply for ReadAnswer {
    ghost bytes = { λ x answer. showing_to x (read_of answer) };

    ghost most = { 275 };

    fn response(&self) -> Response<'_> {
        let told = self.code == ReadCode::Content;
        Response {
            code: Code(self.code.byte()),
            max_age: told.then_some(self.max_age),
            body: self.body.as_slice(),
        }
    }
}

// What a change is answered with: with a 5.03 its Max-Age is told.
impl Reply for ChangeAnswer {
    ghost bytes = { λ x answer. saying_to x (said_of answer) };

    ghost most = { 35 };

    fn response(&self) -> Response<'_> {
        let told = self.code == ChangeCode::ServiceUnavailable;
        Response {
            code: Code(self.code.byte()),
            max_age: told.then_some(self.max_age),
            body: self.body.as_slice(),
        }
    }
}
