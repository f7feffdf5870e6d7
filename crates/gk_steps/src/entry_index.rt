//! An index over the literals of patterns.
ghost use Rattle.std.specs.Prelude.{◌≡◌, ◌≤◌, ◌<◌, ◌+◌, ◌^◌, ℕ, List, [], ◌∷◌, length, IfOk, IfSome, OnOk};
ghost use Rattle.gk_steps.specs.Pattern.{PieceValue, Literal, piece_value, piece_values};
ghost use Rattle.gk_steps.specs.EntryIndex as spec;
ghost use Rattle.gk_steps.specs.EntryIndex.{HasLongLiteral, IsEndsKey, IsKeyOf, GrowsLengths};
ghost use Rattle.gk_steps.specs.EntryIndex.{Lists, AreListed, IsIndexOf};
ghost use Rattle.gk_steps.specs.EntryIndex.{SkipsByEnds, SkipsAt, SkipsInside, Skips, SkipsEntries};

use crate::keyed_numbers::KeyedNumbers;
use crate::library::Entry;
use crate::pattern::Piece;
use std::alloc::{AllocError, Global};

/// The number of tries after which a search no longer uses the index.
const MOST_TRIES: usize = 16;

/// The number of entries that may be listed under the same ends.
const MOST_ALIKE: usize = 8;

/// The number of bytes at the beginning of a text that its ends have.
const FIRST: usize = 7;

/// The number of bytes at the beginning of a literal by which it is found.
const WINDOW: usize = 4;

/// The positions of a library's entries, each under one key of its pattern. That is the key of the pattern's ends: the
/// first bytes of the literal that it begins with, and the last byte of the one that it ends with. If many patterns have
/// these ends, it is the key of the whole pattern, if that is one literal, or of a literal that few patterns have. A text
/// that a pattern matches has the same ends, the same whole or the same literal, so a look-up tries the keys of its text.
/// A literal is found by its window, which is its first four bytes, and its length.
#[derive(Debug, Drop)]
pub(crate) struct Index {
    /// The number of entries that are listed, which are the first ones.
    pub listed: usize,
    /// Whether an entry is listed under its whole or a literal.
    pub looks_inside: bool,
    /// The lengths of literals, each once under the window of its literal.
    pub lengths: KeyedNumbers,
    /// The positions of entries.
    pub positions: KeyedNumbers,
}

/// The keys of a text's ends: for patterns that end with a literal, and for those that end with a field.
#[derive(Clone, Copy, Debug)]
pub(crate) struct Ends {
    pub by_literal: u64,
    pub by_field: u64,
}

// Returns the text of a literal, or an empty text for a field.
fn literal_of(piece: &Piece) -> &str
    ensures { result.now ≡ spec.literal_of (piece_value piece.now) }
{
    match piece {
        Piece::Literal(text) => text.as_str(),
        Piece::Field { .. } => "",
    }
}

// Returns the literal that a pattern begins with, or an empty text if there is none.
fn first_literal(pieces: &[Piece]) -> &str
    ensures { result.now ≡ spec.first_literal (piece_values pieces.now) }
{
    match pieces.first() {
        Some(piece) => literal_of(piece),
        None => "",
    }
}

// Returns the literal that a pattern ends with, or an empty text if there is none.
#[tactic(auto, using(crate::proofs::EntryIndexLemmas::last_is))]
fn last_literal(pieces: &[Piece]) -> &str
    ensures { result.now ≡ spec.last_literal (piece_values pieces.now) }
{
    match pieces.last() {
        Some(piece) => literal_of(piece),
        None => "",
    }
}

// Returns the last of some bytes, or 0 if there is none.
#[inline(always)]
#[tactic(auto, using(crate::proofs::EntryIndexLemmas::last_byte_is))]
fn last_byte(bytes: &[u8]) -> u8
    ensures { result ≡ spec.last_byte bytes.now }
{
    match bytes.last() {
        Some(byte) => *byte,
        None => 0,
    }
}

// Returns the window of some bytes at a position: four bytes as one number.
#[inline(always)]
fn window_at(bytes: &[u8], start: usize) -> u64
    requires { start + 4 ≤ length bytes.now }
    ensures value { result ≡ spec.window_at bytes.now start }
    ensures below { result < 2 ^ 32 }
{
    let (_, rest) = bytes.split_at(start);
    let (four, _) = rest.split_at(WINDOW);
    u64::from(u32::from_le_bytes([four[0], four[1], four[2], four[3]]))
}

// Returns the key of the ends of a text that begins with some bytes and ends with one.
#[inline(always)]
fn ends_key(bytes: &[u8], last: u8) -> u64
    requires { 7 ≤ length bytes.now }
    ensures { result ≡ spec.ends_key bytes.now last }
{
    let first = window_at(bytes, 0);
    let rest = window_at(bytes, FIRST - WINDOW) / (1 << 8);
    first + rest * (1 << 32) + u64::from(last) * (1 << 56)
}

/// Returns the keys of a text's ends, or `None` if it is too short to have any.
#[inline(always)]
pub(crate) fn ends_of(text: &str) -> Option<Ends>
    ensures { result ≡ spec.ends_of text.now }
{
    let bytes = text.as_bytes();
    if bytes.len() < FIRST {
        return None;
    }
    Some(Ends {
        by_literal: ends_key(bytes, last_byte(bytes)),
        by_field: ends_key(bytes, 0),
    })
}

/// The factor of a key: the golden ratio's part behind the point, in 64 bits. It spreads short texts over all keys.
const FACTOR: u64 = 11_400_714_819_323_198_485;

// Extends a key by some bytes.
fn key_over(key: u64, bytes: &[u8]) -> u64
    ensures { result ≡ spec.key_over key bytes.now }
{
    let mut over = key;
    for position in 0..bytes.len() {
        let byte = u64::from(bytes[position]);
        over = over.wrapping_mul(FACTOR).wrapping_add(byte);
    }
    over
}

// Returns the literal that is the whole pattern, if it has no other piece.
fn whole_literal(pieces: &[Piece]) -> Option<&str>
    ensures { IfSome result (λ text. piece_values pieces.now ≡ Literal text.now ∷ []) }
{
    match pieces {
        [piece] => match piece {
            Piece::Literal(text) => Some(text.as_str()),
            Piece::Field { .. } => None,
        },
        _ => None,
    }
}

impl Index {
    /// Returns an index that lists nothing. Doesn't allocate.
    pub(crate) fn new(alloc: Global) -> Index
        ensures { result.listed ≡ 0 }
    {
        Index {
            listed: 0,
            looks_inside: false,
            lengths: KeyedNumbers::new(alloc),
            positions: KeyedNumbers::new(alloc),
        }
    }

    // Returns whether fewer entries are listed under a literal than under another one, if there is another. Of two that
    // are equally rare the longer one is rarer.
    fn is_rarer(&self, literal: &str, than: Option<&str>) -> bool {
        let Some(than) = than else {
            return true;
        };
        let count = self.positions.count_under(key_over(0, literal.as_bytes()));
        let other = self.positions.count_under(key_over(0, than.as_bytes()));
        count < other || (count == other && than.len() < literal.len())
    }

    // Returns the rarest literal of a pattern that has a window, if there is one.
    fn rarest_literal<'p>(&self, pieces: &'p [Piece]) -> Option<&'p str>
        ensures { IfSome result (λ literal.
            HasLongLiteral literal.now (piece_values pieces.entry.now)) }
    {
        let mut rarest: Option<&'p str> = None;
        for k in 0..pieces.len() {
            let literal = literal_of(&pieces[k]);
            if WINDOW <= literal.len() && self.is_rarer(literal, rarest) {
                rarest = Some(literal);
            }
        }
        rarest
    }

    // Returns the key of a pattern's ends, if it begins with a literal that is long enough and if few patterns have it.
    fn key_of_ends(&self, pieces: &[Piece]) -> Option<u64>
        ensures { IfSome result (λ key. IsEndsKey key (piece_values pieces.now)) }
    {
        let first = first_literal(pieces).as_bytes();
        if first.len() < FIRST {
            return None;
        }
        let key = ends_key(first, last_byte(last_literal(pieces).as_bytes()));
        if self.positions.count_under(key) < MOST_ALIKE {
            Some(key)
        } else {
            None
        }
    }

    // Returns the key under which a pattern is listed: that of its ends, else that of its whole or a literal, else 0. Adds
    // the length of that literal.
    fn key_for(&mut self, pieces: &[Piece]) -> Result<u64, AllocError>
        requires { 0 < length self.old.lengths.buckets.items }
        ensures key { OnOk result (IfOk result (λ key.
            IsKeyOf self.new key (piece_values pieces.now))) }
        ensures grows { OnOk result (GrowsLengths self.old self.new) }
    {
        if let Some(key) = self.key_of_ends(pieces) {
            return Ok(key);
        }
        if let Some(text) = whole_literal(pieces) {
            self.looks_inside = true;
            return Ok(key_over(0, text.as_bytes()));
        }
        let Some(literal) = self.rarest_literal(pieces) else {
            return Ok(0);
        };
        let bytes = literal.as_bytes();
        self.looks_inside = true;
        self.lengths.push_once(window_at(bytes, 0), bytes.len())?;
        Ok(key_over(0, bytes))
    }

    // Lists a pattern at a position.
    fn add(&mut self, position: usize, pieces: &[Piece]) -> Result<(), AllocError>
        requires lengths { 0 < length self.old.lengths.buckets.items }
        requires positions { 0 < length self.old.positions.buckets.items }
        ensures kept { OnOk result ((p : ℕ) (ps : List PieceValue)
            → Lists self.old p ps → Lists self.new p ps) }
        ensures added { OnOk result (Lists self.new position (piece_values pieces.now)) }
        ensures lengths { OnOk result (length self.new.lengths.buckets.items
            ≡ length self.old.lengths.buckets.items) }
        ensures positions { OnOk result (length self.new.positions.buckets.items
            ≡ length self.old.positions.buckets.items) }
        ensures listed { OnOk result (self.new.listed ≡ self.old.listed) }
    {
        let key = self.key_for(pieces)?;
        self.positions.push(key, position)?;
        Ok(())
    }

    // Lists the entries that aren't listed yet.
    fn list(&mut self, entries: &[Entry]) -> Result<(), AllocError>
        requires lengths { 0 < length self.old.lengths.buckets.items }
        requires positions { 0 < length self.old.positions.buckets.items }
        requires before { IsIndexOf self.old entries.now }
        ensures { OnOk result (IsIndexOf self.new entries.now) }
    {
        while self.listed < entries.len() {
            let position = self.listed;
            self.add(position, &entries[position].pattern.pieces)?;
            self.listed = position + 1;
        }
        Ok(())
    }

    /// Lists the entries that aren't listed yet. There are more buckets than entries, so few keys share one.
    pub(crate) fn grow(&mut self, entries: &[Entry]) -> Result<(), AllocError>
        requires { IsIndexOf self.old entries.now }
        ensures { OnOk result (IsIndexOf self.new entries.now) }
    {
        if self.positions.buckets.len() <= entries.len() || self.lengths.buckets.is_empty() {
            let alloc = *self.positions.buckets.allocator();
            let count = entries.len().saturating_mul(2).saturating_add(1);
            *self = Index {
                listed: 0,
                looks_inside: false,
                lengths: KeyedNumbers::with_buckets(alloc, count)?,
                positions: KeyedNumbers::with_buckets(alloc, count)?,
            };
        }
        self.list(entries)
    }

    // Returns the least position from `from` on that is listed under a literal that a text has at a place, or `most` if
    // none is less.
    fn next_at(&self, start: usize, from: usize, most: usize, bytes: &[u8]) -> usize
        requires { start + 4 ≤ length bytes.now }
        ensures { SkipsAt self.now start from most bytes.now result }
    {
        let (_, rest) = bytes.split_at(start);
        let window = window_at(bytes, start);
        let lengths = self.lengths.bucket_of(window);
        let mut least = most;
        for k in 0..lengths.len() {
            let item = lengths[k];
            if item.key == window && item.number <= rest.len() {
                let (literal, _) = rest.split_at(item.number);
                least = self
                    .positions
                    .least_under(key_over(0, literal), from, least);
            }
        }
        least
    }

    // Returns the least position from `from` on that is listed under the whole or a literal of a text, or `most` if none
    // is less.
    #[inline(never)]
    fn next_inside(&self, from: usize, most: usize, text: &str) -> usize
        ensures { SkipsInside self.now from most text.now result }
    {
        let bytes = text.as_bytes();
        let mut least = self.positions.least_under(key_over(0, bytes), from, most);
        for start in 0..bytes.len().saturating_sub(WINDOW - 1) {
            least = self.next_at(start, from, least, bytes);
        }
        least
    }

    // Returns the least position from `from` on that is listed under 0 or the ends of a text, or `most` if none is less.
    #[inline(always)]
    fn next_by_ends(&self, from: usize, most: usize, ends: Option<Ends>) -> usize
        ensures { SkipsByEnds self.now from most ends result }
    {
        let least = self.positions.least_under(0, from, most);
        match ends {
            Some(ends) => {
                let least = self.positions.least_under(ends.by_literal, from, least);
                self.positions.least_under(ends.by_field, from, least)
            }
            None => least,
        }
    }

    // Returns the least position from `from` on that the index lists for a text with these ends, or `most` if none is
    // less.
    #[inline(always)]
    fn next(&self, from: usize, most: usize, ends: Option<Ends>, text: &str) -> usize
        requires { ends ≡ spec.ends_of text.now }
        ensures { Skips self.now from most text.now result }
    {
        let least = self.next_by_ends(from, most, ends);
        if self.looks_inside {
            self.next_inside(from, least, text)
        } else {
            least
        }
    }
}

/// Entries with their index.
#[derive(Clone, Copy, Debug)]
pub(crate) struct IndexedEntries<'a> {
    pub entries: &'a [Entry],
    pub index: &'a Index,
}

impl IndexedEntries<'_> {
    /// Returns a position at or after `from`. No entry from `from` up to, but not including, that position matches a
    /// text, which has these ends. After `MOST_TRIES` the index isn't used, because a look-up would take longer.
    #[inline(always)]
    pub(crate) fn next(&self, from: usize, tries: usize, ends: Option<Ends>, text: &str) -> usize
        requires indexed { AreListed self.now.index.now self.now.entries.now }
        requires ends { ends ≡ spec.ends_of text.now }
        ensures { SkipsEntries self.now.entries.now from text.now result }
    {
        if tries < MOST_TRIES && from < self.index.listed {
            self.index.next(from, self.index.listed, ends, text)
        } else {
            from
        }
    }
}
