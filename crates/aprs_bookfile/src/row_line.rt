//! A row's line.
//!
//! Words of the contracts here:
//! - A line spells a row if it is `row_line` of it, in this form of moments. `IsBookRow`: a line
//!   can spell the row, and its frame is a UI frame.
//! - `IsWrongRow`: the cause is `RowSyntax`, and no row is spelled; or it is `Frame`, and a row is
//!   spelled but for its frame.
//! - `SpellsFrame`, `IsWrongFrame`: the digits spell this frame; or no bytes, or no UI frame.
//! - `IsWritable form m`: the moment is before 2100, and a whole second in the form to the second.
ghost use Rattle.std.specs.Prelude.{◌≡◌, ◌≢◌, ◌↔◌, ◌<◌, ◌∷◌, ◌++◌, ℕ, List, length, All, IsTrue, IfOk, OnOk, IfErr, IfNone, IfSome};
ghost use Rattle.aprs_log.specs.Clock.{form_size};
ghost use Rattle.aprs_log.specs.Receiver.{IsName};
ghost use Rattle.aprs_log.specs.Moment.{moment_text_in, IsWritable};
ghost use Rattle.aprs_bookfile.specs.Lines.{pieces};
ghost use Rattle.aprs_bookfile.specs.RowFields.{IsWrongFrame, IsWrongRow, SpellsFrame};
ghost use Rattle.aprs_bookfile.specs.Text.{row_line, IsBookRow};

use crate::cut::cut_near;
use crate::fault::BookCause;
use crate::hexadecimal::decode_frame;
use crate::row_buffers::RowBuffers;
use aprs_ax25::{Frame, FrameRef, MAX_UI_FRAME};
use aprs_log::{Clock, Moment, MomentForm, Receiver, ReceptionRef};
use aprs_rows::RowView;

/// The row that a line spells, with its moments in this form. Fails with `RowSyntax` where the line
/// spells no row, and with `Frame` where it spells one but for its frame, whose bytes aren't a UI
/// frame. The frame is read into `buffers`, of which the row borrows it. `known` has names of
/// receivers, with commas between, or is empty: a line mostly has those of the line before.
pub fn read_row<'l>(
    buffers: &'l mut RowBuffers,
    form: MomentForm,
    known: &[u8],
    line: &'l [u8],
) -> Result<RowView<'l>, BookCause>
    requires { 0 < length known.now → All IsName (pieces 44 known.now) }
    ensures ok { IfOk result (λ x. IsBookRow form x × (line.now ≡ row_line form x)) }
    ensures err { IfErr result (λ cause. IsWrongRow form line.now cause) }
{
    let Some(rest) = cut_tag(line) else {
        return Err(BookCause::RowSyntax);
    };
    let Some(first) = cut_moment(&mut buffers.clock, form, rest) else {
        return Err(BookCause::RowSyntax);
    };
    let Some(last) = cut_last(&mut buffers.clock, form, first.0, rest, first.1) else {
        return Err(BookCause::RowSyntax);
    };
    let Some((receivers, rest)) = cut_names(known, last.1) else {
        return Err(BookCause::RowSyntax);
    };
    let Some((receiver, digits)) = cut_name(rest) else {
        return Err(BookCause::RowSyntax);
    };
    read_frame(&mut buffers.bytes, &mut buffers.frame, digits)?;
    let greatest = ReceptionRef::new(last.0, receiver, FrameRef::of(&buffers.frame));
    Ok(RowView::new(first.0, receivers, greatest))
}

/// What follows the tag of a row's line, `T`, and a space, or `None` where the line doesn't begin
/// so.
fn cut_tag(line: &[u8]) -> Option<&[u8]>
    ensures some { IfSome result (λ rest. line.now ≡ 84 ∷ 32 ∷ rest.now) }
    ensures none { IfNone result ((rest : List ℕ) → line.now ≢ 84 ∷ 32 ∷ rest) }
{
    if line.len() < 2 || line[0] != b'T' || line[1] != b' ' {
        return None;
    }
    Some(&line[2..])
}

/// The moment in this form that a text begins with, and what follows the space after it, or `None`
/// where the text doesn't begin so. The clock keeps the day that was read before.
fn cut_moment<'l>(clock: &mut Clock, form: MomentForm, text: &'l [u8]) -> Option<(Moment, &'l [u8])>
    ensures some { IfSome result (λ p. IsWritable form p.0
        × (text.now ≡ moment_text_in form p.0 ++ 32 ∷ p.1.now)) }
    ensures none { IfNone result ((m : ℕ) (rest : List ℕ) → IsWritable form m
        → text.now ≢ moment_text_in form m ++ 32 ∷ rest) }
{
    let size = size_in(form);
    if text.len() <= size || text[size] != b' ' {
        return None;
    }
    match read_moment(clock, form, &text[..size]) {
        Some(moment) => Some((moment, &text[size + 1..])),
        None => None,
    }
}

/// The last moment of a row, with which `text` begins, and what follows the space after it, or
/// `None` where the text doesn't begin so. `before` is the first moment's text, a space and `text`.
/// Where the last moment has the same text as the first, it isn't read again.
fn cut_last<'l>(
    clock: &mut Clock,
    form: MomentForm,
    first: Moment,
    before: &[u8],
    text: &'l [u8],
) -> Option<(Moment, &'l [u8])>
    requires writable { IsWritable form first }
    requires before { before.now ≡ moment_text_in form first ++ 32 ∷ text.now }
    ensures some { IfSome result (λ p. IsWritable form p.0
        × (text.now ≡ moment_text_in form p.0 ++ 32 ∷ p.1.now)) }
    ensures none { IfNone result ((m : ℕ) (rest : List ℕ) → IsWritable form m
        → text.now ≢ moment_text_in form m ++ 32 ∷ rest) }
{
    match cut_known(&before[..size_in(form)], text) {
        Some((_, rest)) => Some((first, rest)),
        None => cut_moment(clock, form, text),
    }
}

/// How many bytes the text of a moment has in this form.
fn size_in(form: MomentForm) -> usize
    ensures { result ≡ form_size form }
{
    match form {
        MomentForm::Seconds => 20,
        MomentForm::Millis => 24,
    }
}

/// The moment that a field spells in this form, or `None` where it spells none. The clock keeps its
/// day. No moment is after the last millisecond of 2099.
fn read_moment(clock: &mut Clock, form: MomentForm, field: &[u8]) -> Option<Moment>
    ensures some { IfSome result (λ m. IsWritable form m × (field.now ≡ moment_text_in form m)) }
    ensures none { IfNone result ((m : ℕ) → IsWritable form m → field.now ≢ moment_text_in form m) }
{
    match clock.parse_in(form, field) {
        Some(moment) => {
            prove!(moment.millis() <= 4_102_444_799_999);
            Some(moment)
        }
        None => None,
    }
}

/// The names of receivers, with commas between, that a text begins with, and what follows the space
/// after them, or `None` where the text doesn't begin so. Where they are the names in `known`, they
/// need not be looked at again.
fn cut_names<'l>(known: &[u8], text: &'l [u8]) -> Option<(&'l [u8], &'l [u8])>
    requires { 0 < length known.now → All IsName (pieces 44 known.now) }
    ensures some { IfSome result (λ p. All IsName (pieces 44 p.0.now)
        × (text.now ≡ p.0.now ++ 32 ∷ p.1.now)) }
    ensures none { IfNone result ((names rest : List ℕ) → All IsName (pieces 44 names)
        → text.now ≢ names ++ 32 ∷ rest) }
{
    match cut_known(known, text) {
        Some(found) => Some(found),
        None => cut_other_names(text),
    }
}

/// `known` and what follows the space after it, where it isn't empty and the text begins so. `None`
/// decides nothing.
fn cut_known<'l>(known: &[u8], text: &'l [u8]) -> Option<(&'l [u8], &'l [u8])>
    ensures { IfSome result (λ p. (0 < length known.now) × (p.0.now ≡ known.now)
        × (text.now ≡ p.0.now ++ 32 ∷ p.1.now)) }
{
    let size = known.len();
    if size == 0 || text.len() <= size || text[size] != b' ' {
        return None;
    }
    let own = &text[..size];
    if own == known {
        Some((own, &text[size + 1..]))
    } else {
        None
    }
}

/// The names of receivers, with commas between, that a text begins with, and what follows the space
/// after them, or `None` where the text doesn't begin so.
fn cut_other_names(text: &[u8]) -> Option<(&[u8], &[u8])>
    ensures some { IfSome result (λ p. All IsName (pieces 44 p.0.now)
        × (text.now ≡ p.0.now ++ 32 ∷ p.1.now)) }
    ensures none { IfNone result ((names rest : List ℕ) → All IsName (pieces 44 names)
        → text.now ≢ names ++ 32 ∷ rest) }
{
    let (names, rest) = cut_near(text, b' ')?;
    if are_names(names) {
        Some((names, rest))
    } else {
        None
    }
}

/// The name of a receiver that a text begins with, and what follows the space after it, or `None`
/// where the text doesn't begin so.
fn cut_name(text: &[u8]) -> Option<(&[u8], &[u8])>
    ensures some { IfSome result (λ p. IsName p.0.now × (text.now ≡ p.0.now ++ 32 ∷ p.1.now)) }
    ensures none { IfNone result ((name rest : List ℕ) → IsName name
        → text.now ≢ name ++ 32 ∷ rest) }
{
    let (name, rest) = cut_near(text, b' ')?;
    if is_name(name) {
        Some((name, rest))
    } else {
        None
    }
}

/// Whether each part of a field, with commas between, is a receiver's name.
fn are_names(field: &[u8]) -> bool
    ensures { IsTrue result ↔ All IsName (pieces 44 field.now) }
{
    let mut rest = field;
    while let Some((piece, after)) = cut_near(rest, b',') {
        if !is_name(piece) {
            return false;
        }
        rest = after;
    }
    is_name(rest)
}

/// Whether the bytes are a receiver's name.
fn is_name(bytes: &[u8]) -> bool
    ensures { IsTrue result ↔ IsName bytes.now }
{
    Receiver::parse(bytes).is_some()
}

/// Reads the frame of a field in lower case hexadecimal into `frame`, over that of the line before.
/// Fails with `RowSyntax` where the field isn't the digits of 1 to `MAX_UI_FRAME` bytes, and with
/// `Frame` where these aren't a UI frame. The bytes go to the start of `room`.
fn read_frame(
    room: &mut [u8; MAX_UI_FRAME],
    frame: &mut Frame,
    field: &[u8],
) -> Result<(), BookCause>
    ensures ok { OnOk result (SpellsFrame field.now frame.new) }
    ensures err { IfErr result (λ cause. IsWrongFrame field.now cause) }
{
    let Some(bytes) = decode_frame(field, room) else {
        return Err(BookCause::RowSyntax);
    };
    match frame.reread(bytes) {
        Ok(()) => Ok(()),
        Err(_) => Err(BookCause::Frame),
    }
}
