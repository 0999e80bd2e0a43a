// The option Max-Age: for how many seconds a reply stays true.
ghost use Rattle.std.specs.Prelude.{◌≡◌, length, Ok};
ghost use Rattle.message.specs.Encoding.{options_bytes};
ghost use Rattle.message.specs.Writing.{state_of};
ghost use Rattle.transcribe.specs.Transcribing.{Accepted, options_added};
ghost use Rattle.server.specs.Replies.{fewest};
ghost use Rattle.replies.specs.Response.{age_options};

use message::writer::{WriteError, Writer};

// The number of the option.
const NUMBER: u16 = 14;

// What holds where the option is left out.
const DEFAULT: u32 = 60;

// How many bytes a number needs; zero needs none.
fn fewest_len(n: u32) -> usize
    ensures { result ≡ length (fewest n) }
{
    4 - n.leading_zeros() as usize / 8
}

// How many bytes the option has.
pub(crate) fn option_len(max_age: Option<u32>) -> usize
    ensures { result ≡ length (options_bytes 0 (age_options max_age)) }
{
    match max_age {
        None | Some(DEFAULT) => 0,
        Some(seconds) => 2 + fewest_len(seconds),
    }
}

// Writes the option; the writer is known to accept it. (A `Result`, which is always Ok, so that callers go on by `?`.)
pub(crate) fn write_option(writer: &mut Writer<'_>, max_age: Option<u32>) -> Result<(), WriteError>
    requires { Accepted (state_of writer.old) (age_options max_age) }
    ensures answer { result ≡ Ok tt }
    ensures state { state_of writer.new ≡ options_added (state_of writer.old) (age_options max_age) }
{
    match max_age {
        None | Some(DEFAULT) => Ok(()),
        Some(seconds) => {
            let bytes = seconds.to_be_bytes();
            writer.option(NUMBER, &bytes[4 - fewest_len(seconds)..])
        }
    }
}
