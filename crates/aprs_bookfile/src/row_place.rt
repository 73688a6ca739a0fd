//! Where in a row's line a byte stands.
ghost use Rattle.std.specs.Prelude.{◌≡◌, ℕ, ◌+◌, ◌<◌, ◌≤◌, ◌^◌, Some, length, take};
ghost use Rattle.aprs_bookfile.specs.RowPlace as Spec;

/// A field of a row's line.
#[derive(Clone, Copy, Debug, PartialEq, Eq)]
pub enum Field {
    /// `T`.
    Tag,
    /// The first moment.
    First,
    /// The last moment.
    Last,
    /// The receivers' names, with commas between.
    Receivers,
    /// The name of the greatest reception's receiver.
    Receiver,
    /// The digits of the frame.
    Frame,
}

/// A place in a row's line: in a field, or in a name of one, after so many of its bytes.
#[derive(Clone, Copy, Debug, PartialEq, Eq)]
pub struct Place {
    field: Field,
    size: usize,
}

impl Place {
    /// Where a row's line begins.
    pub fn first() -> Place
        ensures { result ≡ Spec.first_place }
    {
        Place {
            field: Field::Tag,
            size: 0,
        }
    }

    /// The place after one byte more, or `None` where no row's line has the byte here.
    pub fn after(self, byte: u8) -> Option<Place>
        ensures { result ≡ Spec.place_after self byte }
    {
        if is_byte_of(self.field, byte) {
            return self.within();
        }
        if self.size < least_of(self.field) {
            return None;
        }
        beginning_of(field_after(self.field, byte))
    }

    /// How many of these bytes, which come next, go on with the same field, which isn't too long
    /// then.
    pub fn count_more(self, bytes: &[u8]) -> usize
        ensures within { result ≤ length bytes.now }
        ensures short { 0 < result → self.size + result ≤ Spec.most_of self.field }
        ensures more { (n : ℕ) → n ≤ result
            → Spec.last_after (Some self) (take n bytes.now) ≡ Some (Spec.place_further self n) }
    {
        let room = most_of(self.field).saturating_sub(self.size);
        let most = room.min(bytes.len());
        for i in 0..most {
            if !is_byte_of(self.field, bytes[i]) {
                return i;
            }
        }
        most
    }

    /// The place after so many bytes more of the same field. Their sum has to be below 2^64.
    pub fn further(self, count: usize) -> Place
        requires { self.size + count < 2 ^ 64 }
        ensures { result ≡ Spec.place_further self count }
    {
        Place {
            field: self.field,
            size: self.size + count,
        }
    }

    /// The place after one byte more of the same field, or `None` where that is too long.
    fn within(self) -> Option<Place>
        ensures { result ≡ Spec.place_within self }
    {
        if self.size < most_of(self.field) {
            Some(Place {
                field: self.field,
                size: self.size + 1,
            })
        } else {
            None
        }
    }
}

/// The place after one byte more, if there is a place and a row's line may have the byte there.
pub fn next_after(place: Option<Place>, byte: u8) -> Option<Place>
    ensures { result ≡ Spec.next_after place byte }
{
    match place {
        Some(place) => place.after(byte),
        None => None,
    }
}

/// The beginning of a field, or of one of its names.
fn beginning_of(field: Option<Field>) -> Option<Place>
    ensures { result ≡ Spec.beginning_of field }
{
    match field {
        Some(field) => Some(Place { field, size: 0 }),
        None => None,
    }
}

/// Whether the field may hold the byte. None may hold a space or a comma.
fn is_byte_of(field: Field, byte: u8) -> bool
    ensures { result ≡ Spec.is_byte_of field byte }
{
    match field {
        Field::Tag => byte == b'T',
        Field::First | Field::Last => byte >= b'-',
        Field::Receivers | Field::Receiver => {
            byte.is_ascii_alphanumeric() || byte == b'-' || byte == b'_'
        }
        Field::Frame => matches!(byte, b'0'..=b'9' | b'a'..=b'f'),
    }
}

/// The fewest bytes of the field, or of one of its names.
fn least_of(field: Field) -> usize
    ensures { result ≡ Spec.least_of field }
{
    match field {
        Field::Tag | Field::Receivers | Field::Receiver => 1,
        Field::First | Field::Last => 20,
        Field::Frame => 2,
    }
}

/// The most bytes of the field, or of one of its names.
fn most_of(field: Field) -> usize
    ensures { result ≡ Spec.most_of field }
{
    match field {
        Field::Tag => 1,
        Field::First | Field::Last => 24,
        Field::Receivers | Field::Receiver => 16,
        Field::Frame => 656,
    }
}

/// The field that begins after this byte, or another name of the same field.
fn field_after(field: Field, byte: u8) -> Option<Field>
    ensures { result ≡ Spec.field_after field byte }
{
    match (field, byte) {
        (Field::Tag, b' ') => Some(Field::First),
        (Field::First, b' ') => Some(Field::Last),
        (Field::Last, b' ') => Some(Field::Receivers),
        (Field::Receivers, b',') => Some(Field::Receivers),
        (Field::Receivers, b' ') => Some(Field::Receiver),
        (Field::Receiver, b' ') => Some(Field::Frame),
        _ => None,
    }
}
