//! The words of a row that are kept.

ghost use Rattle.std.specs.Prelude.{◌≡◌, ◌≢◌, ◌↔◌, ◌<◌, ◌≤◌, ◌+◌, ◌-◌, ◌/◌, ◌^◌, ◌==◌, ◌&&◌, ℕ, []};
ghost use Rattle.std.specs.Prelude.{true, false, not, ltb, if◌then◌else◌};
ghost use Rattle.std.specs.Prelude.{max, length, take, get_or, count_by, IsOk, IfOk, OnOk, OnErr};
ghost use Rattle.std.specs.Int.RustNames.{bit_and, bit_xor};
ghost use Rattle.zx_model.specs.Bits.{xor};
ghost use Rattle.zx_bits.specs.Rows.{IsFirstFrom};
ghost use Rattle.zx_bits.specs.Internal.Words.{is_odd};
ghost use Rattle.zx_bits.specs.Internal.Windows.{word_at, word_from, is_set, end_of, places_of, span};
ghost use Rattle.zx_bits.specs.Internal.Windows.{CanKeep, Covers, AddsTo, EndsBy};

use smallvec::SmallVec;
use std::alloc::{AllocError, Global};

// How many bits a word has.
pub(crate) const WORD: usize = 64;

// Of so many words, those at the ends that have no bit set go after each change. Of fewer they go before memory is
// taken: they are cheaper to keep than to look at.
const WIDE: usize = 32;

// Words of a row, among them all that have a bit set, and how many come before them.
#[derive(Drop)]
pub(crate) struct Window {
    pub(crate) offset: usize,
    pub(crate) words: SmallVec<u64, 4>,
}

impl Window {
    pub(crate) fn new(alloc: Global) -> Window
        ensures offset { result.offset ≡ 0 }
        ensures none { result.words.items ≡ [] }
    {
        Window {
            offset: 0,
            words: SmallVec::new(alloc),
        }
    }

    pub(crate) fn copy(&self) -> Result<Window, AllocError>
        ensures offset { IfOk result (λ copy. copy.offset ≡ self.now.offset) }
        ensures items { IfOk result (λ copy. copy.words.items ≡ self.now.words.items) }
    {
        Ok(Window {
            offset: self.offset,
            words: SmallVec::from_slice(*self.words.allocator(), self.words.as_slice())?,
        })
    }

    // The word of the whole row with this number.
    pub(crate) fn word(&self, number: usize) -> u64
        ensures { result ≡ word_at self.now number }
    {
        if number < self.offset {
            return 0;
        }
        let words = self.words.as_slice();
        let index = number - self.offset;
        if index < words.len() { words[index] } else { 0 }
    }

    pub(crate) fn is_set(&self, place: usize) -> bool
        ensures { result ≡ is_set self.now place }
    {
        self.word(place / WORD) >> (place % WORD) & 1 == 1
    }

    // The number of the first word after those that are kept.
    pub(crate) fn end(&self) -> usize
        requires { end_of self.now ≤ 2 ^ 58 }
        ensures { result ≡ end_of self.now }
    {
        self.offset + self.words.len()
    }

    // Where the kept words begin; where there are none, they may begin anywhere.
    fn start(&self, otherwise: usize) -> usize
        ensures kept { 0 < length self.now.words.items → result ≡ self.now.offset }
        ensures none { length self.now.words.items ≡ 0 → result ≡ otherwise }
    {
        if self.words.is_empty() {
            otherwise
        } else {
            self.offset
        }
    }

    // Keeps these words too. Where memory runs out, the words are as they were.
    #[inline(always)]
    fn cover(&mut self, first: usize, end: usize) -> Result<(), AllocError>
        requires { CanKeep first end self.old }
        ensures ok { OnOk result (Covers first end self.old self.new) }
        ensures err { OnErr result (self.new ≡ self.old) }
        ensures room { max (end_of self.old) end ≤ self.old.words.capacity → IsOk result }
    {
        if self.offset <= first && end <= self.end() {
            return Ok(());
        }
        self.widen(first, end)
    }

    // The same where some of them may not be kept.
    fn widen(&mut self, first: usize, end: usize) -> Result<(), AllocError>
        requires { CanKeep first end self.old }
        ensures ok { OnOk result (Covers first end self.old self.new) }
        ensures err { OnErr result (self.new ≡ self.old) }
        ensures room { max (end_of self.old) end ≤ self.old.words.capacity → IsOk result }
    {
        if span(self.offset, self.words.len(), first, end) > self.words.capacity() {
            self.make_room(first, end)?;
        }
        self.extend(first, end)
    }

    // Takes the memory for these words and for those that have a bit set and all between, and lets those at the ends
    // go that have none. Where memory runs out, the words are as they were.
    fn make_room(&mut self, first: usize, end: usize) -> Result<(), AllocError>
        requires { CanKeep first end self.old }
        ensures words { (number : ℕ) → word_at self.new number ≡ word_at self.old number }
        ensures end { end_of self.new ≤ end_of self.old }
        ensures capacity { self.old.words.capacity ≤ self.new.words.capacity }
        ensures ok { OnOk result
            (span self.new.offset (length self.new.words.items) first end ≤ self.new.words.capacity) }
        ensures err { OnErr result (self.new ≡ self.old) }
    {
        let words = self.words.as_slice();
        let count = words.len();
        let last = used(words);
        let start = unused_before(&words[..last]);
        let least = span(self.offset + start, last - start, first, end);
        self.words.reserve(least.saturating_sub(count))?;
        self.cut(start, last);
        Ok(())
    }

    // The same where there is memory for all words from the first of these or those kept to the last.
    fn extend(&mut self, first: usize, end: usize) -> Result<(), AllocError>
        requires { CanKeep first end self.old }
        ensures ok { OnOk result (Covers first end self.old self.new) }
        ensures err { OnErr result (self.new ≡ self.old) }
        ensures fits { span self.old.offset (length self.old.words.items) first end ≤ self.old.words.capacity →
            IsOk result }
    {
        let start = self.start(first);
        let offset = start.min(first);
        let total = span(self.offset, self.words.len(), first, end);
        self.words.reserve(total - self.words.len())?;
        self.words.resize(total, 0)?;
        move_back(self.words.as_mut_slice(), start - offset);
        self.offset = offset;
        Ok(())
    }

    // Of many words, lets those at both ends go that have no bit set.
    #[inline(always)]
    fn trim(&mut self)
        requires { end_of self.old ≤ 2 ^ 58 }
        ensures words { (number : ℕ) → word_at self.new number ≡ word_at self.old number }
        ensures end { end_of self.new ≤ end_of self.old }
        ensures capacity { self.new.words.capacity ≡ self.old.words.capacity }
    {
        if self.words.len() >= WIDE && !is_tight(self.words.as_slice()) {
            self.trim_ends();
        }
    }

    // The same where there may be some.
    fn trim_ends(&mut self)
        requires { end_of self.old ≤ 2 ^ 58 }
        ensures words { (number : ℕ) → word_at self.new number ≡ word_at self.old number }
        ensures end { end_of self.new ≤ end_of self.old }
        ensures capacity { self.new.words.capacity ≡ self.old.words.capacity }
    {
        let words = self.words.as_slice();
        let end = used(words);
        let start = unused_before(&words[..end]);
        self.cut(start, end);
    }

    // Keeps the words from one on up to another alone, since no other has a bit set.
    fn cut(&mut self, start: usize, end: usize)
        requires order { start ≤ end }
        requires within { end ≤ length self.old.words.items }
        requires before { (i : ℕ) → i < start → get_or (take end self.old.words.items) i 0 ≡ 0 }
        requires after { (i : ℕ) → end ≤ i → get_or self.old.words.items i 0 ≡ 0 }
        requires bounded { end_of self.old ≤ 2 ^ 58 }
        ensures words { (number : ℕ) → word_at self.new number ≡ word_at self.old number }
        ensures offset { self.new.offset ≡ self.old.offset + start }
        ensures len { length self.new.words.items ≡ end - start }
        ensures capacity { self.new.words.capacity ≡ self.old.words.capacity }
    {
        self.words.truncate(end);
        if start > 0 {
            move_front(self.words.as_mut_slice(), start);
            self.words.truncate(end - start);
            self.offset += start;
        }
    }

    // Adds to one of the kept words.
    fn add_to(&mut self, number: usize, mask: u64)
        requires first { self.old.offset ≤ number }
        requires end { number < end_of self.old }
        ensures { AddsTo number mask self.old self.new }
    {
        self.words[number - self.offset] ^= mask;
    }

    pub(crate) fn flip(&mut self, place: usize) -> Result<(), AllocError>
        requires { end_of self.old ≤ 2 ^ 58 }
        ensures ok { OnOk result ((other : ℕ) →
            is_set self.new other ≡ xor (is_set self.old other) (other == place)) }
        ensures end { OnOk result (end_of self.new ≤ max (end_of self.old) (place / 64 + 1)) }
        ensures capacity { OnOk result (self.old.words.capacity ≤ self.new.words.capacity) }
        ensures err { OnErr result (self.new ≡ self.old) }
        ensures room { max (end_of self.old) (place / 64 + 1) ≤ self.old.words.capacity →
            IsOk result }
    {
        let number = place / WORD;
        self.cover(number, number + 1)?;
        self.add_to(number, 1 << (place % WORD));
        self.trim();
        Ok(())
    }

    // Where a place is set, it isn't any more.
    pub(crate) fn unset(&mut self, place: usize)
        requires { end_of self.old ≤ 2 ^ 58 }
        ensures places { (other : ℕ) →
            is_set self.new other ≡ (is_set self.old other && not (other == place)) }
        ensures end { end_of self.new ≤ end_of self.old }
        ensures capacity { self.new.words.capacity ≡ self.old.words.capacity }
    {
        if self.is_set(place) {
            self.add_to(place / WORD, 1 << (place % WORD));
            self.trim();
        }
    }

    pub(crate) fn xor(&mut self, other: &Window) -> Result<(), AllocError>
        requires bounded { end_of self.old ≤ 2 ^ 58 }
        requires other_bounded { end_of other.now ≤ 2 ^ 58 }
        ensures ok { OnOk result ((place : ℕ) →
            is_set self.new place ≡ xor (is_set self.old place) (is_set other.now place)) }
        ensures end { (stop : ℕ) → EndsBy stop other.now →
            OnOk result (end_of self.new ≤ max (end_of self.old) stop) }
        ensures capacity { OnOk result (self.old.words.capacity ≤ self.new.words.capacity) }
        ensures err { OnErr result (self.new ≡ self.old) }
        ensures room { (stop : ℕ) → EndsBy stop other.now →
            max (end_of self.old) stop ≤ self.old.words.capacity → IsOk result }
        ensures nothing { EndsBy 0 other.now → IsOk result }
    {
        let words = other.words.as_slice();
        let end = used(words);
        if end == 0 {
            return Ok(());
        }
        let start = unused_before(&words[..end]);
        self.cover(other.offset + start, other.offset + end)?;
        let first = other.offset + start - self.offset;
        add_words(self.words.as_mut_slice(), first, &words[start..end]);
        self.trim();
        Ok(())
    }

    // Unsets each place that isn't set in another.
    pub(crate) fn keep(&mut self, other: &Window)
        requires { end_of self.old ≤ 2 ^ 58 }
        ensures places { (place : ℕ) →
            is_set self.new place ≡ (is_set self.old place && is_set other.now place) }
        ensures end { end_of self.new ≡ end_of self.old }
        ensures capacity { self.new.words.capacity ≡ self.old.words.capacity }
    {
        keep_words(self.words.as_mut_slice(), self.offset, other);
    }

    // Whether an odd number of places are set in both.
    pub(crate) fn parity_with(&self, other: &Window) -> bool
        requires bounded { end_of self.now ≤ 2 ^ 58 }
        requires other_bounded { end_of other.now ≤ 2 ^ 58 }
        ensures { (len : ℕ) → ((place : ℕ) → len ≤ place → is_set self.now place ≡ false) →
            result ≡ is_odd len (λ place. is_set self.now place && is_set other.now place) }
    {
        let ours = self.words.as_slice();
        let theirs = other.words.as_slice();
        let mut common = 0;
        for number in self.offset.max(other.offset)..self.end().min(other.end()) {
            common ^= ours[number - self.offset] & theirs[number - other.offset];
        }
        common.count_ones() % 2 == 1
    }

    // How many places are set.
    pub(crate) fn count(&self) -> usize
        requires { end_of self.now < 2 ^ 58 }
        ensures { result ≡ length (places_of self.now) }
    {
        let mut count = 0;
        for word in self.words.as_slice() {
            count += word.count_ones() as usize;
        }
        count
    }

    // How many places are set in both.
    pub(crate) fn count_common(&self, other: &Window) -> usize
        requires bounded { end_of self.now < 2 ^ 58 }
        requires other_bounded { end_of other.now < 2 ^ 58 }
        ensures { result ≡ count_by (is_set other.now) (places_of self.now) }
    {
        let ours = self.words.as_slice();
        let theirs = other.words.as_slice();
        let mut count = 0;
        for number in self.offset.max(other.offset)..self.end().min(other.end()) {
            let common = ours[number - self.offset] & theirs[number - other.offset];
            count += common.count_ones() as usize;
        }
        count
    }

    // Whether the same places are set in both.
    pub(crate) fn is_same(&self, other: &Window) -> bool
        requires bounded { end_of self.now ≤ 2 ^ 58 }
        requires other_bounded { end_of other.now ≤ 2 ^ 58 }
        ensures { (result ≡ true) ↔ ((place : ℕ) → is_set self.now place ≡ is_set other.now place) }
    {
        let ours = self.words.as_slice();
        let theirs = other.words.as_slice();
        if self.offset == other.offset && ours.len() == theirs.len() {
            return ours == theirs;
        }
        for number in self.offset.min(other.offset)..self.end().max(other.end()) {
            if self.word(number) != other.word(number) {
                return false;
            }
        }
        true
    }

    // The first set bit from a place on.
    pub(crate) fn first_from(&self, place: usize) -> Option<usize>
        requires { end_of self.now ≤ 2 ^ 58 }
        ensures { IsFirstFrom (is_set self.now) place result }
    {
        let number = place / WORD;
        let rest = self.word(number) & (u64::MAX << (place % WORD));
        if rest != 0 {
            return Some(number * WORD + rest.trailing_zeros() as usize);
        }
        let words = self.words.as_slice();
        for index in (number + 1).saturating_sub(self.offset)..words.len() {
            let word = words[index];
            if word != 0 {
                return Some((self.offset + index) * WORD + word.trailing_zeros() as usize);
            }
        }
        None
    }

    pub(crate) fn reserve(&mut self, words: usize) -> Result<(), AllocError>
        ensures offset { self.new.offset ≡ self.old.offset }
        ensures items { self.new.words.items ≡ self.old.words.items }
        ensures ok { OnOk result (words ≤ self.new.words.capacity) }
        ensures err { OnErr result (self.new ≡ self.old) }
        ensures capacity { self.old.words.capacity ≤ self.new.words.capacity }
    {
        self.words
            .reserve_exact(words.saturating_sub(self.words.len()))
    }

    // Lets all words go, and keeps their memory.
    pub(crate) fn clear(&mut self)
        ensures none { self.new.words.items ≡ [] }
        ensures offset { self.new.offset ≡ 0 }
        ensures capacity { self.new.words.capacity ≡ self.old.words.capacity }
    {
        self.words.clear();
        self.offset = 0;
    }
}

// How many words there are from the first to the last of so many from a start on and of those from one on up to another.
fn span(start: usize, count: usize, first: usize, end: usize) -> usize
    requires some { first < end }
    requires within { end ≤ 2 ^ 58 }
    requires bounded { start + count ≤ 2 ^ 58 }
    ensures { result ≡ span start count first end }
{
    if count == 0 {
        end - first
    } else {
        (start + count).max(end) - start.min(first)
    }
}

// Moves the words back by so many, and puts zeros in front of them.
fn move_back(words: &mut [u64], count: usize)
    requires { count ≤ length words.old }
    ensures moved { (i : ℕ) → i < length words.old →
        get_or words.new i 0 ≡ (if ltb i count then 0 else get_or words.old (i - count) 0) }
    ensures len { length words.new ≡ length words.old }
{
    if count == 0 {
        return;
    }
    let kept = words.len() - count;
    for moved in 0..kept {
        let from = kept - 1 - moved;
        words[from + count] = words[from];
    }
    for i in 0..count {
        words[i] = 0;
    }
}

// Moves the words behind the first few to the front.
fn move_front(words: &mut [u64], count: usize)
    requires { count ≤ length words.old }
    ensures moved { (i : ℕ) → count + i < length words.old →
        get_or words.new i 0 ≡ get_or words.old (count + i) 0 }
    ensures len { length words.new ≡ length words.old }
{
    for i in count..words.len() {
        words[i - count] = words[i];
    }
}

// Whether the first and the last word have a bit set, if there are any.
fn is_tight(words: &[u64]) -> bool {
    match words {
        [first, .., last] => *first != 0 && *last != 0,
        [only] => *only != 0,
        [] => true,
    }
}

// How many words there are up to the last that has a bit set.
fn used(words: &[u64]) -> usize
    ensures within { result ≤ length words.now }
    ensures zeros { (i : ℕ) → result ≤ i → get_or words.now i 0 ≡ 0 }
    ensures last { 0 < result → get_or words.now (result - 1) 0 ≢ 0 }
    ensures fits { 0 < result → get_or words.now (result - 1) 0 < 2 ^ 64 }
{
    let mut end = words.len();
    'back: while end > 0 && words[end - 1] == 0 {
        end -= 1;
    }
    end
}

// How many words come before the first that has a bit set.
fn unused_before(words: &[u64]) -> usize
    ensures within { result ≤ length words.now }
    ensures zeros { (i : ℕ) → i < result → get_or words.now i 0 ≡ 0 }
{
    let mut first = 0;
    'front: while first < words.len() && words[first] == 0 {
        first += 1;
    }
    first
}

// Of words, the first of which has a number, unsets each bit that isn't set in a row.
fn keep_words(words: &mut [u64], offset: usize, row: &Window)
    requires { offset + length words.old ≤ 2 ^ 58 }
    ensures size { length words.new ≡ length words.old }
    ensures words { (i : ℕ) →
        get_or words.new i 0 ≡ bit_and (get_or words.old i 0) (word_at row.now (offset + i)) }
{
    for i in 0..words.len() {
        words[i] &= row.word(offset + i);
    }
}

// Adds words to those from a place on, four at a time.
fn add_words(words: &mut [u64], start: usize, added: &[u64])
    requires { start + length added.now ≤ length words.old }
    ensures size { length words.new ≡ length words.old }
    ensures words { (i : ℕ) →
        get_or words.new i 0 ≡ bit_xor (get_or words.old i 0) (word_from start added.now i) }
{
    let mut i = 0;
    'fours: while i + 4 <= added.len() {
        add_word(words, start, added, i);
        add_word(words, start, added, i + 1);
        add_word(words, start, added, i + 2);
        add_word(words, start, added, i + 3);
        i += 4;
    }
    'rest: while i < added.len() {
        add_word(words, start, added, i);
        i += 1;
    }
}

// Adds one of these words.
#[inline(always)]
fn add_word(words: &mut [u64], start: usize, added: &[u64], i: usize)
    requires one { i < length added.now }
    requires within { start + length added.now ≤ length words.old }
    ensures size { length words.new ≡ length words.old }
    ensures words { (v : ℕ) → get_or words.new v 0 ≡
        bit_xor (get_or words.old v 0) (if v == start + i then word_from start added.now (start + i) else 0) }
{
    words[start + i] ^= added[i];
}
