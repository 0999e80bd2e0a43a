// What one option of a datagram is.
ghost use Rattle.std.specs.Prelude.{◌≡◌, length};
ghost use Rattle.message.specs.Options.{kind_of};
ghost use Rattle.message.specs.Reading.{field_of, read_option};
ghost use Rattle.message.specs.Texts.{kind_text};

// An option's number, the place in the datagram where its value begins, and the value, a part of the datagram.
#[derive(Clone, Copy, PartialEq, Eq, Debug)]
pub struct OptionField<'a> {
    pub number: u16,
    pub place: usize,
    pub value: &'a [u8],
}

// An option by its kind. Ignored options may be skipped; a request with an Unknown one is not understood.
#[derive(Clone, Copy, PartialEq, Eq, Debug)]
pub enum MessageOption<'a> {
    Host(OptionField<'a>),
    Port(OptionField<'a>),
    Path(OptionField<'a>),
    Proxy(OptionField<'a>),
    Ignored(OptionField<'a>),
    Unknown(OptionField<'a>),
}

impl<'a> MessageOption<'a> {
    // The option as its kind, where the option before it has the number `before`. Numbers and lengths stand here alone, as
    // in the table of RFC 7252.
    pub(crate) fn by_kind(before: u16, field: OptionField<'a>) -> MessageOption<'a>
        ensures { read_option result ≡ record { kind = kind_of before field.entry.number (length field.entry.value.now); number = field.entry.number; place = field.entry.place; value = field.entry.value.now } }
    {
        let length = field.value.len();
        let again = field.number == before;
        match field.number {
            11 if length <= 255 => MessageOption::Path(field),
            3 if !again && 1 <= length && length <= 255 => MessageOption::Host(field),
            7 if !again && length <= 2 => MessageOption::Port(field),
            35 if !again && 1 <= length && length <= 1034 => MessageOption::Proxy(field),
            39 if !again && 1 <= length && length <= 255 => MessageOption::Proxy(field),
            3 | 7 | 11 | 35 | 39 => MessageOption::Unknown(field),
            number if number % 2 == 0 => MessageOption::Ignored(field),
            _ => MessageOption::Unknown(field),
        }
    }

    // Number, place and value, which every kind has.
    pub fn field(&self) -> OptionField<'a>
        ensures { result ≡ field_of self.now }
    {
        match self {
            MessageOption::Host(field)
            | MessageOption::Port(field)
            | MessageOption::Path(field)
            | MessageOption::Proxy(field)
            | MessageOption::Ignored(field)
            | MessageOption::Unknown(field) => *field,
        }
    }

    // The name of the kind. It is no `Display`: that of an option would show its number and its value too.
    pub fn kind_name(&self) -> &'static str
        ensures { result.now ≡ kind_text (read_option self.now).kind }
    {
        match self {
            MessageOption::Host(_) => "Host",
            MessageOption::Port(_) => "Port",
            MessageOption::Path(_) => "Path",
            MessageOption::Proxy(_) => "Proxy",
            MessageOption::Ignored(_) => "Ignored",
            MessageOption::Unknown(_) => "Unknown",
        }
    }
}
