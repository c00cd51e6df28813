//! Lines up to an empty one, as a head and the trailer of a chunked body have them.
ghost use Rattle.std.specs.Prelude.{◌≡◌};
ghost use Rattle.http_wire.specs.LinePlaces.{next_line_place, least_left};

/// Where a byte stands in lines that end with an empty one. A line ends with a line feed, and is
/// empty where at most a carriage return stands before it (RFC 9112 section 2.2).
#[derive(Clone, Copy, Debug, PartialEq, Eq)]
pub(crate) enum LinePlace {
    /// At the start of a line, all lines so far being empty.
    Leading,
    /// Behind a carriage return there.
    LeadingReturn,
    /// In a line that isn't empty.
    InLine,
    /// At the start of a line.
    LineStart,
    /// Behind a carriage return there.
    StartReturn,
}

impl LinePlace {
    /// The place behind a byte; none where the byte ends the empty line.
    pub(crate) fn after(self, byte: u8) -> Option<LinePlace>
        ensures { result ≡ next_line_place self byte }
    {
        match self {
            LinePlace::Leading => Some(match byte {
                b'\n' => LinePlace::Leading,
                b'\r' => LinePlace::LeadingReturn,
                _ => LinePlace::InLine,
            }),
            LinePlace::LeadingReturn => Some(match byte {
                b'\n' => LinePlace::Leading,
                _ => LinePlace::InLine,
            }),
            LinePlace::InLine => Some(match byte {
                b'\n' => LinePlace::LineStart,
                _ => LinePlace::InLine,
            }),
            LinePlace::LineStart => match byte {
                b'\n' => None,
                b'\r' => Some(LinePlace::StartReturn),
                _ => Some(LinePlace::InLine),
            },
            LinePlace::StartReturn => match byte {
                b'\n' => None,
                _ => Some(LinePlace::InLine),
            },
        }
    }

    /// The least number of bytes that must still come up to the end of the empty line.
    pub(crate) fn least_left(self) -> u32
        ensures { result ≡ least_left self }
    {
        match self {
            LinePlace::LineStart | LinePlace::StartReturn => 1,
            LinePlace::Leading | LinePlace::LeadingReturn | LinePlace::InLine => 2,
        }
    }
}
