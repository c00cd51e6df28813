//! Where the parts of a constraint stand in its text, which is read without memory.

ghost use Rattle.std.specs.Prelude.{◌≡◌, ◌≢◌, ◌==◌, ◌<◌, ◌≤◌, ◌+◌, ◌&&◌, ◌||◌, nat_lt, true, false, not, length, take, slice_index, slice_range, IfOk, IfErr, OnOk};
ghost use Rattle.std.specs.List.{list_all};
ghost use Rattle.fault_place.specs.Place.{IsPlace};
ghost use Rattle.fault_place.specs.Reader.{At, Accepts};
ghost use Rattle.ascii_bytes.specs.Classes.{is_blank, is_plain_byte};
ghost use Rattle.ascii_bytes.specs.Signs.{closing_bracket, opening_bracket, opening_parenthesis, plus};
ghost use Rattle.version_order.specs.Constraints.{last_byte, is_reserved, is_plain, only, interval_of, IsConstraint};
ghost use Rattle.version_order.specs.ConstraintReader.{first, second, opened, closed, constraint_reader, IsReadFrom, IsPlaceFrom};
ghost use Rattle.version_order.specs.Shapes.{bound_in, IsSound, constraint_of, IsSoundShape};

use ascii_bytes::{Blank, Plain, class_end};

/// A bound from `start` to `end`, which are equal where there is none, and the place of what
/// stands after it and its blanks.
#[derive(Clone, Copy, Debug)]
pub(crate) struct Bound {
    pub start: usize,
    pub end: usize,
    pub stop: usize,
}

#[derive(Clone, Copy, Debug)]
pub(crate) enum Shape {
    Any,
    Plain,
    Single(Bound),
    /// Whether the first bracket is square, the bounds, whether the last bracket is.
    Pair(bool, Bound, Bound, bool),
}

fn is_reserved(bytes: &[u8]) -> bool
    ensures { result ≡ is_reserved bytes.now }
{
    bytes == b"latest.release".as_slice()
        || bytes == b"latest.integration".as_slice()
        || bytes == b"LATEST".as_slice()
        || bytes == b"RELEASE".as_slice()
}

fn ends_in_plus(bytes: &[u8]) -> bool
    requires { 0 < length bytes.now }
    ensures { result ≡ (last_byte bytes.now == plus) }
{
    bytes[bytes.len() - 1] == b'+'
}

/// Whether plain bytes are no plain version all the same.
fn is_special(bytes: &[u8]) -> bool
    requires { 0 < length bytes.now }
    ensures { result ≡ (last_byte bytes.now == plus || is_reserved bytes.now) }
{
    ends_in_plus(bytes) || is_reserved(bytes)
}

/// A bound from `start` to `end`, with its blanks, or the place of the text.
fn bound_after(bytes: &[u8], from: usize, start: usize, end: usize) -> Result<Bound, usize>
    requires blanks { from ≤ start }
    requires bound { start < end }
    requires within { end ≤ length bytes.now }
    requires blank { list_all is_blank (slice_range bytes.now from start) ≡ true }
    requires plain { list_all is_plain_byte (slice_range bytes.now start end) ≡ true }
    requires other { end < length bytes.now → is_plain_byte (slice_index bytes.now end) ≡ false }
    ensures sound { IfOk result (IsSound bytes.now) }
    ensures read { IfOk result (λ bound. IsReadFrom from (bound_in bytes.now bound) bytes.now bound.stop) }
    ensures refused { IfErr result (IsPlaceFrom from bytes.now) }
{
    let stop = class_end::<Blank>(bytes, end);
    if stop == bytes.len() {
        return Err(stop);
    }
    Ok(Bound { start, end, stop })
}

/// No bound between `from` and `start`, or the place of the text.
fn no_bound(bytes: &[u8], from: usize, start: usize) -> Result<Bound, usize>
    requires blanks { from ≤ start }
    requires within { start ≤ length bytes.now }
    requires blank { list_all is_blank (slice_range bytes.now from start) ≡ true }
    requires no_blank { start < length bytes.now → is_blank (slice_index bytes.now start) ≡ false }
    requires other { start < length bytes.now → is_plain_byte (slice_index bytes.now start) ≡ false }
    ensures sound { IfOk result (IsSound bytes.now) }
    ensures read { IfOk result (λ bound. IsReadFrom from (bound_in bytes.now bound) bytes.now bound.stop) }
    ensures refused { IfErr result (IsPlaceFrom from bytes.now) }
{
    if from < start {
        return Err(start);
    }
    if start == bytes.len() {
        return Err(start);
    }
    Ok(Bound {
        start,
        end: start,
        stop: start,
    })
}

/// The optional bound after a bracket or a comma, which ends at `from`, or the place of the text.
fn bound_at(bytes: &[u8], from: usize) -> Result<Bound, usize>
    requires { from ≤ length bytes.now }
    ensures sound { IfOk result (IsSound bytes.now) }
    ensures read { IfOk result (λ bound. IsReadFrom from (bound_in bytes.now bound) bytes.now bound.stop) }
    ensures refused { IfErr result (IsPlaceFrom from bytes.now) }
{
    let start = class_end::<Blank>(bytes, from);
    let end = class_end::<Plain>(bytes, start);
    if start < end {
        bound_after(bytes, from, start, end)
    } else {
        no_bound(bytes, from, start)
    }
}

/// An interval of two bounds with its last bracket, after which the text must end.
fn read_end(
    bytes: &[u8],
    square: bool,
    low: Bound,
    high: Bound,
    square_end: bool,
) -> Result<Shape, usize>
    requires low { IsSound bytes.now low }
    requires high { IsSound bytes.now high }
    requires closed { let interval = interval_of square (bound_in bytes.now low) (bound_in bytes.now high) square_end in
        At constraint_reader (closed interval) (take (high.stop + 1) bytes.now) }
    ensures sound { IfOk result (IsSoundShape bytes.now) }
    ensures read { IfOk result (λ shape. IsConstraint bytes.now (constraint_of bytes.now shape)) }
    ensures refused { IfErr result (IsPlace (Accepts IsConstraint) bytes.now) }
{
    if high.stop + 1 < bytes.len() {
        return Err(high.stop + 1);
    }
    Ok(Shape::Pair(square, low, high, square_end))
}

/// The second bound of an interval whose first one is read, and what stands after it.
fn read_second(bytes: &[u8], square: bool, low: Bound) -> Result<Shape, usize>
    requires sound { IsSound bytes.now low }
    requires begun { let side = second square (bound_in bytes.now low) in
        At constraint_reader (opened side) (take (low.stop + 1) bytes.now) }
    ensures sound { IfOk result (IsSoundShape bytes.now) }
    ensures read { IfOk result (λ shape. IsConstraint bytes.now (constraint_of bytes.now shape)) }
    ensures refused { IfErr result (IsPlace (Accepts IsConstraint) bytes.now) }
{
    let high = match bound_at(bytes, low.stop + 1) {
        Ok(high) => high,
        Err(place) => return Err(place),
    };
    let c = bytes[high.stop];
    if c == b']' {
        return read_end(bytes, square, low, high, true);
    }
    if c == b')' {
        return read_end(bytes, square, low, high, false);
    }
    Err(high.stop)
}

/// One bound between square brackets, after which the text must end.
fn read_single(bytes: &[u8], bound: Bound) -> Result<Shape, usize>
    requires sound { IsSound bytes.now bound }
    requires closed { let interval = only (slice_range bytes.now bound.start bound.end) in
        At constraint_reader (closed interval) (take (bound.stop + 1) bytes.now) }
    ensures sound { IfOk result (IsSoundShape bytes.now) }
    ensures read { IfOk result (λ shape. IsConstraint bytes.now (constraint_of bytes.now shape)) }
    ensures refused { IfErr result (IsPlace (Accepts IsConstraint) bytes.now) }
{
    if bound.stop + 1 < bytes.len() {
        return Err(bound.stop + 1);
    }
    Ok(Shape::Single(bound))
}

/// Whether one bound between square brackets ends here.
fn ends_single(square: bool, bound: Bound, c: u8) -> bool
    ensures { result ≡ (c == closing_bracket && (square && nat_lt bound.start bound.end)) }
{
    c == b']' && square && bound.start < bound.end
}

/// What stands after the first bracket.
fn read_interval(bytes: &[u8], square: bool) -> Result<Shape, usize>
    requires within { 0 < length bytes.now }
    requires begun { At constraint_reader (opened (first square)) (take 1 bytes.now) }
    ensures sound { IfOk result (IsSoundShape bytes.now) }
    ensures read { IfOk result (λ shape. IsConstraint bytes.now (constraint_of bytes.now shape)) }
    ensures refused { IfErr result (IsPlace (Accepts IsConstraint) bytes.now) }
{
    let low = match bound_at(bytes, 1) {
        Ok(low) => low,
        Err(place) => return Err(place),
    };
    let c = bytes[low.stop];
    if c == b',' {
        return read_second(bytes, square, low);
    }
    if ends_single(square, low, c) {
        return read_single(bytes, low);
    }
    Err(low.stop)
}

/// A plain version, or the place of the text.
fn read_plain(bytes: &[u8]) -> Result<Shape, usize>
    requires within { 0 < length bytes.now }
    requires no_square { slice_index bytes.now 0 ≢ opening_bracket }
    requires no_round { slice_index bytes.now 0 ≢ opening_parenthesis }
    ensures sound { IfOk result (IsSoundShape bytes.now) }
    ensures read { IfOk result (λ shape. IsConstraint bytes.now (constraint_of bytes.now shape)) }
    ensures refused { IfErr result (IsPlace (Accepts IsConstraint) bytes.now) }
{
    let end = class_end::<Plain>(bytes, 0);
    if end < bytes.len() {
        return Err(end);
    }
    if is_special(bytes) {
        return Err(end);
    }
    Ok(Shape::Plain)
}

/// Where the parts of a constraint stand, or the place of the text.
pub(crate) fn shape_of(bytes: &[u8]) -> Result<Shape, usize>
    ensures sound { IfOk result (IsSoundShape bytes.now) }
    ensures read { IfOk result (λ shape. IsConstraint bytes.now (constraint_of bytes.now shape)) }
    ensures refused { IfErr result (IsPlace (Accepts IsConstraint) bytes.now) }
{
    if bytes.is_empty() {
        return Ok(Shape::Any);
    }
    if bytes[0] == b'[' {
        return read_interval(bytes, true);
    }
    if bytes[0] == b'(' {
        return read_interval(bytes, false);
    }
    read_plain(bytes)
}
