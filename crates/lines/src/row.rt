// An entry as its shape and its values, and back.
ghost use Rattle.std.specs.Prelude.{◌≡◌, ◌≤◌, length, take};
ghost use Rattle.lines.specs.Fits.{FitAll};
ghost use Rattle.lines.specs.Rows.{values_in};
ghost use Rattle.lines.specs.Shapes.{kinds_of, shape_of};
ghost use Rattle.lines.specs.Values.{values_of};

use crate::entry::LineEntry;
use crate::shape::Shape;
use crate::value::Value;
use book::entry::Entry;

// The most fields that a line has behind its letter.
pub(crate) const MOST: usize = 5;

// The first values are those of the shape's kinds, and the others stand for nothing.
#[derive(Clone, Copy)]
pub(crate) struct Row {
    pub(crate) shape: Shape,
    pub(crate) values: [Value; MOST],
}

impl Row {
    fn new(shape: Shape, values: &[Value]) -> Row
        requires { length values.now ≤ 5 }
        ensures shape { result.shape ≡ shape }
        ensures values { take (length values.now) result.values ≡ values.now }
    {
        let mut row = [Value::Missing; MOST];
        row[..values.len()].copy_from_slice(values);
        Row { shape, values: row }
    }

    // The row of an entry.
    pub(crate) fn of(entry: LineEntry) -> Row
        ensures shape { result.shape ≡ shape_of entry }
        ensures values { values_in result ≡ values_of entry }
    {
        match entry {
            LineEntry::SetUp {
                parties,
                full_rate,
                step_rate,
            } => Row::new(
                Shape::SetUp,
                &[
                    Value::Figure(parties),
                    Value::Figure(full_rate),
                    Value::Figure(step_rate),
                ],
            ),
            LineEntry::DayPrices { day, heavy, light } => Row::new(
                Shape::DayPrices,
                &[
                    Value::Figure(day),
                    Value::of_price(heavy),
                    Value::of_price(light),
                ],
            ),
            LineEntry::HourPrices {
                first,
                last,
                real_time,
                factor,
            } => Row::new(
                Shape::HourPrices,
                &[
                    Value::Figure(first),
                    Value::Figure(last),
                    Value::of_price(real_time),
                    Value::of_price(factor),
                ],
            ),
            LineEntry::Call(call) => Row::of_call(call),
        }
    }

    fn of_call(call: Entry) -> Row
        ensures shape { result.shape ≡ shape_of (LineEntry.Call call) }
        ensures values { values_in result ≡ values_of (LineEntry.Call call) }
    {
        match call {
            Entry::Open { day, kind, month } => Row::new(
                Shape::Open,
                &[Value::Figure(day), Value::Day(kind), Value::Figure(month)],
            ),
            Entry::Result { hour, party, mw } => Row::new(
                Shape::Result,
                &[Value::Figure(hour), Value::Figure(party), Value::Figure(mw)],
            ),
            Entry::Offer { hour, party, mw } => Row::new(
                Shape::Offer,
                &[Value::Figure(hour), Value::Figure(party), Value::Figure(mw)],
            ),
            Entry::Request { hour, party, mw } => Row::new(
                Shape::Request,
                &[Value::Figure(hour), Value::Figure(party), Value::Figure(mw)],
            ),
            Entry::Allot { hour } => Row::new(Shape::Allot, &[Value::Figure(hour)]),
            Entry::Deploy { hour, buyer, mw } => Row::new(
                Shape::Deploy,
                &[Value::Figure(hour), Value::Figure(buyer), Value::Figure(mw)],
            ),
            Entry::Miss {
                hour,
                seller,
                buyer,
                mwh,
                cover,
            } => Row::new(
                Shape::Miss,
                &[
                    Value::Figure(hour),
                    Value::Figure(seller),
                    Value::Figure(buyer),
                    Value::Figure(mwh),
                    Value::Cover(cover),
                ],
            ),
            Entry::Close => Row::new(Shape::Close, &[]),
            Entry::Void => Row::new(Shape::Void, &[]),
            Entry::Year => Row::new(Shape::Year, &[]),
        }
    }

    // The values that stand for something.
    pub(crate) fn values(&self) -> &[Value]
        ensures { result.now ≡ values_in self.now }
    {
        &self.values[..self.shape.kinds().len()]
    }

    // The entry of a row.
    pub(crate) fn entry(self) -> LineEntry
        requires { FitAll (kinds_of self.shape) (values_in self) }
        ensures shape { shape_of result ≡ self.shape }
        ensures values { values_of result ≡ values_in self }
    {
        let [first, second, third, fourth, fifth] = self.values;
        match self.shape {
            Shape::SetUp => LineEntry::SetUp {
                parties: first.figure(),
                full_rate: second.figure(),
                step_rate: third.figure(),
            },
            Shape::Open => LineEntry::Call(Entry::Open {
                day: first.figure(),
                kind: second.day(),
                month: third.figure(),
            }),
            Shape::Result => LineEntry::Call(Entry::Result {
                hour: first.figure(),
                party: second.figure(),
                mw: third.figure(),
            }),
            Shape::Offer => LineEntry::Call(Entry::Offer {
                hour: first.figure(),
                party: second.figure(),
                mw: third.figure(),
            }),
            Shape::Request => LineEntry::Call(Entry::Request {
                hour: first.figure(),
                party: second.figure(),
                mw: third.figure(),
            }),
            Shape::Allot => LineEntry::Call(Entry::Allot {
                hour: first.figure(),
            }),
            Shape::Deploy => LineEntry::Call(Entry::Deploy {
                hour: first.figure(),
                buyer: second.figure(),
                mw: third.figure(),
            }),
            Shape::Miss => LineEntry::Call(Entry::Miss {
                hour: first.figure(),
                seller: second.figure(),
                buyer: third.figure(),
                mwh: fourth.figure(),
                cover: fifth.cover(),
            }),
            Shape::Close => LineEntry::Call(Entry::Close),
            Shape::Void => LineEntry::Call(Entry::Void),
            Shape::Year => LineEntry::Call(Entry::Year),
            Shape::DayPrices => LineEntry::DayPrices {
                day: first.figure(),
                heavy: second.price(),
                light: third.price(),
            },
            Shape::HourPrices => LineEntry::HourPrices {
                first: first.figure(),
                last: second.figure(),
                real_time: third.price(),
                factor: fourth.price(),
            },
        }
    }
}
