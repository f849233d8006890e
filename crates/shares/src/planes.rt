//! Planes: the labels of a stop, bit by bit. A plane has one bit for each lane, which says whether the lane's label has
//! the plane's bit; so a rank is found from the highest bit to the lowest, sixty-four lanes at a time.
ghost use Rattle.std.specs.Prelude.{◌≡◌, ◌≢◌, ◌&&◌, ◌<◌, ◌≤◌, ◌+◌, ◌*◌, ◌^◌, [], ℕ, Bool, List, cond, not, length};
ghost use Rattle.std.specs.Prelude.{slice_index, slice_index_or};
ghost use Rattle.shares.specs.Planes.{AreMasks, ArePlanes, IsRanked, block, count_of, has, mask, words_of};
ghost use Rattle.shares.specs.declared.planes.TheConstants as size;
ghost use Rattle.trip_lanes.specs.declared.lanes.TheConstants.{LANES};

use std::simd::prelude::*;
use std::simd::u32x16;
use timetable::NEVER;
use trip_lanes::Lanes;

/// The most batches of sixteen minutes: those of a day.
pub(crate) const MOST_BATCHES: usize = 90;

/// How many words have a bit for each lane of a day: one word for four batches.
pub(crate) const WORDS: usize = (MOST_BATCHES + 3) / 4;

/// One bit for each lane of a stop, with room for those of a day.
pub(crate) type Plane = [u64; WORDS];

/// The row of the planes that shows all lanes: it follows those of a label's 32 bits.
const ALL: usize = 32;

/// How many planes there are: one for each bit of a label, and that of all lanes.
pub(crate) const PLANES: usize = ALL + 1;

/// How many bits hold each number up to one more than the greatest duration.
pub(crate) fn bits_of(greatest: u32) -> u32
    requires { greatest < NEVER }
    ensures few { result ≤ 32 }
    ensures below { greatest + 1 < 2 ^ result }
{
    32 - (greatest + 1).leading_zeros()
}

/// Fills in the planes of the lowest bits, and that of all lanes.
pub(crate) fn fill_planes(lanes: &[Lanes], bits: u32, planes: &mut [Plane])
    requires few { length lanes.now ≤ size.MOST_BATCHES }
    requires bits { bits ≤ 32 }
    requires rows { length planes.old ≡ size.PLANES }
    ensures same { length planes.new ≡ size.PLANES }
    ensures planes { ArePlanes lanes.now bits planes.new }
{
    for word in 0..(lanes.len() + 3) / 4 {
        fill_word(lanes, word, bits, planes);
    }
}

/// Fills in one word of each plane.
fn fill_word(lanes: &[Lanes], word: usize, bits: u32, planes: &mut [Plane])
    requires word { word < size.WORDS }
    requires bits { bits ≤ 32 }
    requires rows { length planes.old ≡ size.PLANES }
    ensures same { length planes.new ≡ size.PLANES }
    ensures plane { (b : ℕ) → b < bits → slice_index (slice_index_or planes.new b []) word
        ≡ mask (has (2 ^ b)) (block lanes.now word) }
    ensures all { slice_index (slice_index_or planes.new size.ALL []) word ≡ mask (has 0) (block lanes.now word) }
    ensures kept { (b w : ℕ) → w ≢ word → slice_index (slice_index_or planes.new b []) w
        ≡ slice_index (slice_index_or planes.old b []) w }
{
    let whole = word_of(lanes, word, 0);
    planes[ALL][word] = whole;
    for b in 0..bits as usize {
        let mask = word_of(lanes, word, 1 << b);
        planes[b][word] = mask;
    }
}

/// In which lanes of four batches the label has a bit.
fn word_of(lanes: &[Lanes], word: usize, bit: u32) -> u64
    requires { word < size.WORDS }
    ensures { result ≡ mask (has bit) (block lanes.now word) }
{
    let first = mask_at(lanes, 4 * word, bit);
    let second = mask_at(lanes, 4 * word + 1, bit);
    let third = mask_at(lanes, 4 * word + 2, bit);
    let fourth = mask_at(lanes, 4 * word + 3, bit);
    first + 65_536 * (second + 65_536 * (third + 65_536 * fourth))
}

/// In which lanes of a batch the label has a bit; in none past the last batch.
fn mask_at(lanes: &[Lanes], batch: usize, bit: u32) -> u64
    ensures mask { result ≡ mask (has bit) (slice_index_or lanes.now batch []) }
    ensures bound { result < 65536 }
{
    if batch < lanes.len() {
        mask_of(lanes[batch], bit)
    } else {
        0
    }
}

/// In which of sixteen lanes the label has a bit.
fn mask_of(batch: Lanes, bit: u32) -> u64
    ensures mask { result ≡ mask (has bit) batch }
    ensures bound { result < 65536 }
{
    (u32x16::from_array(batch) & u32x16::splat(bit))
        .simd_eq(u32x16::splat(bit))
        .to_bitmask()
}

/// The label of a rank, counted from 1, among labels that are cut to so many bits.
///
/// Windows of one or two hours have one or two words, and where that is known there is no loop over them: they go
/// through each bit in a third of the steps.
pub(crate) fn value_at(lanes: &[Lanes], planes: &[Plane], bits: u32, rank: u32) -> u32
    requires few { length lanes.now ≤ size.MOST_BATCHES }
    requires bits { bits ≤ 32 }
    requires rows { length planes.now ≡ size.PLANES }
    requires planes { ArePlanes lanes.now bits planes.now }
    requires some { 1 ≤ rank }
    requires rank { rank ≤ count_of (has 0) lanes.now (words_of lanes.now) }
    ensures { IsRanked lanes.now bits rank result }
{
    match (lanes.len() + 3) / 4 {
        1 => descend(lanes, planes, bits, rank, 1),
        2 => descend(lanes, planes, bits, rank, 2),
        words => descend(lanes, planes, bits, rank, words),
    }
}

/// The label of a rank, bit by bit from the highest: those are left that agree so far.
#[inline(always)]
fn descend(lanes: &[Lanes], planes: &[Plane], bits: u32, rank: u32, words: usize) -> u32
    requires few { length lanes.now ≤ size.MOST_BATCHES }
    requires bits { bits ≤ 32 }
    requires rows { length planes.now ≡ size.PLANES }
    requires planes { ArePlanes lanes.now bits planes.now }
    requires some { 1 ≤ rank }
    requires rank { rank ≤ count_of (has 0) lanes.now (words_of lanes.now) }
    requires words { words ≡ words_of lanes.now }
    ensures { IsRanked lanes.now bits rank result }
{
    let _ = lanes;
    let mut among = planes[ALL];
    let mut size = count_both(&among, &planes[ALL], words);
    let mut left = rank;
    let mut value = 0;
    for k in 0..bits {
        let plane = &planes[(bits - 1 - k) as usize];
        let ones = count_both(&among, plane, words);
        let zeros = size - ones;
        keep(&mut among, plane, words, zeros < left);
        if zeros < left {
            size = ones;
            left -= zeros;
            value = 2 * value + 1;
        } else {
            size = zeros;
            value = 2 * value;
        }
    }
    value
}

/// How many lanes two planes both show.
#[inline(always)]
fn count_both(among: &Plane, plane: &Plane, words: usize) -> u32
    requires { words ≤ size.WORDS }
    ensures { (lanes : List (List ℕ)) (Is Has : ℕ → Bool) → AreMasks Is lanes words among.now →
        AreMasks Has lanes words plane.now →
        result ≡ count_of (λ x. Is x && Has x) lanes words }
{
    let mut count = 0;
    for word in 0..words {
        count += (among[word] & plane[word]).count_ones();
    }
    count
}

/// Keeps those lanes that a plane shows, or those that it doesn't show.
#[inline(always)]
fn keep(among: &mut Plane, plane: &Plane, words: usize, with: bool)
    requires { words ≤ size.WORDS }
    ensures { (lanes : List (List ℕ)) (Is Has : ℕ → Bool) →
        ((i : ℕ) → i < length lanes → length (slice_index_or lanes i []) ≡ LANES) →
        AreMasks Is lanes words among.old → AreMasks Has lanes words plane.now →
        AreMasks (λ x. Is x && cond with (Has x) (not (Has x))) lanes words among.new }
{
    let side = if with { 0 } else { u64::MAX };
    for word in 0..words {
        among[word] = among[word] & (plane[word] ^ side);
    }
}
