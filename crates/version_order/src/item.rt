//! The items of a text and how they stand against each other.

ghost use Rattle.std.specs.Prelude.{◌≡◌, ◌<◌, ◌≤◌, ◌+◌, ◌-◌, ◌++◌, [], ◌∷◌, length, map, get_or, slice_index, All, IfOk, OnOk, IfSome, if◌then◌else◌, ◌==◌, slice_range};
ghost use Rattle.version_order.specs.Items.{is_separator, items};
ghost use Rattle.version_order.specs.Ranks.{rank, rank_cmp, ranks_cmp, empty_rank, number_rank, without_zeros, number_class, qualifiers};
ghost use Rattle.version_order.specs.Cutting.{breaks};
ghost use Rattle.version_order.specs.Kept.{rank_at, ranks_with, IsWithin};

use super::qualifiers::class_of;
use ascii_bytes::is_digit;
use case_table::Table;
use interval_sets::NoMemory;
use std::alloc::{AllocError, Global};
use std::cmp::Ordering;

const RELEASE: u8 = 5;

const WORD: u8 = 7;

const NUMBER: u8 = 8;

/// An item: its class, and for words and numbers without a class of their own the part of the
/// text in small letters that tells them apart.
#[derive(Clone, Copy, Debug)]
pub(crate) struct Item {
    pub class: u8,
    pub start: usize,
    pub end: usize,
}

/// What continues the shorter of two lists.
const EMPTY: Item = Item {
    class: RELEASE,
    start: 0,
    end: 0,
};

fn is_separator(c: u8) -> bool
    ensures { result ≡ is_separator c }
{
    c == b'.' || c == b'-' || c == b'_' || c == b'+'
}

fn level(class: u8) -> Item
    ensures { result ≡ record { class = class; start = 0; end = 0 } }
{
    Item {
        class,
        start: 0,
        end: 0,
    }
}

/// A number from `start` to `end`, which has at least its zeros.
fn number(lowered: &[u8], start: usize, end: usize) -> Item
    requires rises { start ≤ end }
    requires ends { end ≤ length lowered.now }
    ensures value { rank_at lowered.now result ≡ number_rank (without_zeros (slice_range lowered.now start end)) }
    ensures within { IsWithin lowered.now result }
{
    for i in start..end {
        if lowered[i] != b'0' {
            return Item {
                class: NUMBER,
                start: i,
                end,
            };
        }
    }
    EMPTY
}

fn read_item(
    alloc: Global,
    table: &mut Option<Table<u8>>,
    lowered: &[u8],
    start: usize,
    end: usize,
) -> Result<Item, NoMemory>
    requires rises { start ≤ end }
    requires ends { end ≤ length lowered.now }
    requires table { IfSome table.old (λ rows. rows ≡ qualifiers) }
    ensures value { IfOk result (λ made. rank_at lowered.now made ≡ rank (slice_range lowered.now start end)) }
    ensures within { IfOk result (IsWithin lowered.now) }
    ensures kept { IfSome table.new (λ rows. rows ≡ qualifiers) }
{
    let piece = &lowered[start..end];
    if piece.is_empty() {
        return Ok(EMPTY);
    }
    if is_digit(piece[0]) {
        return Ok(number(lowered, start, end));
    }
    match class_of(alloc, table, piece)? {
        Some(class) => Ok(level(class)),
        None => Ok(Item {
            class: WORD,
            start,
            end,
        }),
    }
}

/// Puts the item from `start` to `end` after the others.
fn push_item(
    alloc: Global,
    table: &mut Option<Table<u8>>,
    made: &mut Vec<Item>,
    lowered: &[u8],
    start: usize,
    end: usize,
) -> Result<(), NoMemory>
    requires rises { start ≤ end }
    requires ends { end ≤ length lowered.now }
    requires table { IfSome table.old (λ rows. rows ≡ qualifiers) }
    requires within { All (IsWithin lowered.now) made.old.items }
    ensures value { OnOk result (
        map (rank_at lowered.now) made.new.items ≡
        map (rank_at lowered.now) made.old.items ++ rank (slice_range lowered.now start end) ∷ []) }
    ensures within { OnOk result (All (IsWithin lowered.now) made.new.items) }
    ensures kept { IfSome table.new (λ rows. rows ≡ qualifiers) }
{
    let whole = read_item(alloc, table, lowered, start, end)?;
    made.push(whole).map_err(AllocError::from)?;
    Ok(())
}

/// Whether a digit and a character that is no digit meet before the place `i`.
fn breaks_at(lowered: &[u8], start: usize, i: usize) -> bool
    requires begun { start ≤ i }
    requires within { i < length lowered.now }
    ensures { result ≡ breaks (slice_range lowered.now start i) (slice_index lowered.now i) }
{
    start < i && is_digit(lowered[start]) != is_digit(lowered[i])
}

/// Goes past the character at the place `i`, and tells where the item after it began.
fn pass(
    alloc: Global,
    table: &mut Option<Table<u8>>,
    made: &mut Vec<Item>,
    lowered: &[u8],
    start: usize,
    i: usize,
) -> Result<usize, NoMemory>
    requires begun { start ≤ i }
    requires inside { i < length lowered.now }
    requires table { IfSome table.old (λ rows. rows ≡ qualifiers) }
    requires within { All (IsWithin lowered.now) made.old.items }
    ensures value { IfOk result (λ next.
        ranks_with lowered.now made.new.items next (i + 1) ≡ ranks_with lowered.now made.old.items start i) }
    ensures begun { IfOk result (λ next. next ≤ i + 1) }
    ensures within { OnOk result (All (IsWithin lowered.now) made.new.items) }
    ensures kept { IfSome table.new (λ rows. rows ≡ qualifiers) }
{
    if is_separator(lowered[i]) {
        push_item(alloc, table, made, lowered, start, i)?;
        return Ok(i + 1);
    }
    if breaks_at(lowered, start, i) {
        push_item(alloc, table, made, lowered, start, i)?;
        return Ok(i);
    }
    Ok(start)
}

/// The items of a text in small letters, in time in proportion to its length.
pub(crate) fn items_of(alloc: Global, lowered: &[u8]) -> Result<Vec<Item>, NoMemory>
    ensures value { IfOk result (λ made. map (rank_at lowered.now) made.items ≡ map rank (items lowered.now)) }
    ensures within { IfOk result (λ made. All (IsWithin lowered.now) made.items) }
{
    let mut table = None;
    let mut made = Vec::new(alloc);
    let mut start = 0;
    for i in 0..lowered.len() {
        start = pass(alloc, &mut table, &mut made, lowered, start, i)?;
    }
    push_item(alloc, &mut table, &mut made, lowered, start, lowered.len())?;
    Ok(made)
}

impl Item {
    fn size(&self) -> usize
        requires { self.now.start ≤ self.now.end }
        ensures { result ≡ (if self.now.class == number_class then self.now.end - self.now.start else 0) }
    {
        if self.class == NUMBER {
            self.end - self.start
        } else {
            0
        }
    }
}

/// How an item of one text stands against one of another. Each text is given in small letters.
fn cmp_item(a: &Item, left: &[u8], b: &Item, right: &[u8]) -> Ordering
    requires left_within { IsWithin left.now a.now }
    requires right_within { IsWithin right.now b.now }
    ensures { result ≡ rank_cmp (rank_at left.now a.now) (rank_at right.now b.now) }
{
    match a.class.cmp(&b.class) {
        Ordering::Equal => match a.size().cmp(&b.size()) {
            Ordering::Equal => left[a.start..a.end].cmp(&right[b.start..b.end]),
            order => order,
        },
        order => order,
    }
}

/// The item at a place, or the empty one after the last.
fn item_at(items: &[Item], place: usize) -> Item
    ensures { result ≡ get_or items.now place EMPTY }
{
    items.get(place).copied().unwrap_or(EMPTY)
}

/// How the items at a place stand against each other. Each list is continued by empty items.
pub(crate) fn cmp_at(xs: &[Item], left: &[u8], ys: &[Item], right: &[u8], place: usize) -> Ordering
    requires left_within { All (IsWithin left.now) xs.now }
    requires right_within { All (IsWithin right.now) ys.now }
    ensures { let a = get_or (map (rank_at left.now) xs.now) place empty_rank in
        let b = get_or (map (rank_at right.now) ys.now) place empty_rank in
        result ≡ rank_cmp a b }
{
    cmp_item(&item_at(xs, place), left, &item_at(ys, place), right)
}

/// The order by items. It takes no memory.
pub(crate) fn cmp_items(xs: &[Item], left: &[u8], ys: &[Item], right: &[u8]) -> Ordering
    requires left_within { All (IsWithin left.now) xs.now }
    requires right_within { All (IsWithin right.now) ys.now }
    ensures { result ≡ ranks_cmp (map (rank_at left.now) xs.now) (map (rank_at right.now) ys.now) }
{
    let count = xs.len().max(ys.len());
    for place in 0..count {
        let order = cmp_at(xs, left, ys, right, place);
        if order != Ordering::Equal {
            return order;
        }
    }
    Ordering::Equal
}
