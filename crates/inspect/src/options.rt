// The options of a message as text. Where memory is wanting, what was there stays, and a part of the text may follow.
ghost use Rattle.std.specs.Prelude.{◌≡◌, ◌++◌, OnOk};
ghost use Rattle.message.specs.Reading.{options_of, read_option};
ghost use Rattle.inspect.specs.Options.{further_text, option_text, options_text, text_in};
ghost use Rattle.inspect.specs.Written.{StaysInFront, Written};

use crate::error::LineError;
use message::option::MessageOption;
use message::reader::Reader;
use std::alloc::AllocError;

// Appends an option: its kind, number and place, and its value in hexadecimal.
fn push_option(out: &mut Vec<u8>, option: &MessageOption<'_>) -> Result<(), AllocError>
    ensures text { OnOk result (out.new.items ≡ out.old.items ++ option_text (read_option option.now)) }
    ensures front { StaysInFront out.old.items out.new.items }
{
    let field = option.field();
    out.extend_from_slice(option.kind_name().as_bytes())?;
    out.push(b':')?;
    text::push_decimal(out, u64::from(field.number))?;
    out.push(b'@')?;
    text::push_decimal(out, field.place as u64)?;
    out.push(b'=')?;
    text::push_hex(out, field.value)
}

// Appends the options that the reader has still to give, with a comma before each.
fn push_further(out: &mut Vec<u8>, mut reader: Reader<'_>) -> Result<(), LineError>
    ensures written { Written (text_in further_text (options_of reader.entry)) out.old.items out.new.items result }
    ensures front { StaysInFront out.old.items out.new.items }
{
    while let Some(option) = reader.next()? {
        out.extend_from_slice(b",")?;
        push_option(out, &option)?;
    }
    Ok(())
}

// Appends the options that the reader has still to give, joined by commas, or `-` where there are none.
pub fn push_options(out: &mut Vec<u8>, mut reader: Reader<'_>) -> Result<(), LineError>
    ensures written { Written (text_in options_text (options_of reader.entry)) out.old.items out.new.items result }
    ensures front { StaysInFront out.old.items out.new.items }
{
    let Some(first) = reader.next()? else {
        out.extend_from_slice(b"-")?;
        return Ok(());
    };
    push_option(out, &first)?;
    push_further(out, reader)
}
