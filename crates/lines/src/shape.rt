// The shapes of lines: a letter, and what each field behind it may be.
ghost use Rattle.std.specs.Prelude.{◌≡◌, ◌≢◌, MatchOption};
ghost use Rattle.lines.specs.Shapes.{letter_of, kinds_of};

#[derive(Clone, Copy)]
pub(crate) enum Shape {
    SetUp,
    Open,
    Result,
    Offer,
    Request,
    Allot,
    Deploy,
    Miss,
    Close,
    Void,
    Year,
    DayPrices,
    HourPrices,
}

// What a field may be.
#[derive(Clone, Copy)]
pub(crate) enum Kind {
    Figure,
    Price,
    Day,
    Cover,
}

impl Shape {
    // The shape that a letter begins.
    pub(crate) fn begun_by(letter: char) -> Option<Shape>
        ensures { MatchOption result ((shape : Shape) → letter ≢ letter_of shape) (λ shape. letter ≡ letter_of shape) }
    {
        match letter {
            'S' => Some(Shape::SetUp),
            'D' => Some(Shape::Open),
            'R' => Some(Shape::Result),
            'V' => Some(Shape::Offer),
            'C' => Some(Shape::Request),
            'A' => Some(Shape::Allot),
            'E' => Some(Shape::Deploy),
            'F' => Some(Shape::Miss),
            'Z' => Some(Shape::Close),
            'X' => Some(Shape::Void),
            'Y' => Some(Shape::Year),
            'P' => Some(Shape::DayPrices),
            'H' => Some(Shape::HourPrices),
            _ => None,
        }
    }

    pub(crate) fn letter(self) -> u8
        ensures { result ≡ letter_of self }
    {
        match self {
            Shape::SetUp => b'S',
            Shape::Open => b'D',
            Shape::Result => b'R',
            Shape::Offer => b'V',
            Shape::Request => b'C',
            Shape::Allot => b'A',
            Shape::Deploy => b'E',
            Shape::Miss => b'F',
            Shape::Close => b'Z',
            Shape::Void => b'X',
            Shape::Year => b'Y',
            Shape::DayPrices => b'P',
            Shape::HourPrices => b'H',
        }
    }

    // What the fields behind the letter may be.
    pub(crate) fn kinds(self) -> &'static [Kind]
        ensures { result.now ≡ kinds_of self }
    {
        match self {
            Shape::SetUp | Shape::Result | Shape::Offer | Shape::Request | Shape::Deploy => {
                &[Kind::Figure, Kind::Figure, Kind::Figure]
            }
            Shape::Open => &[Kind::Figure, Kind::Day, Kind::Figure],
            Shape::Allot => &[Kind::Figure],
            Shape::Miss => &[
                Kind::Figure,
                Kind::Figure,
                Kind::Figure,
                Kind::Figure,
                Kind::Cover,
            ],
            Shape::Close | Shape::Void | Shape::Year => &[],
            Shape::DayPrices => &[Kind::Figure, Kind::Price, Kind::Price],
            Shape::HourPrices => &[Kind::Figure, Kind::Figure, Kind::Price, Kind::Price],
        }
    }
}
