//! Buckets of texts by their left boundaries. Contracts see them as the list of the boundaries.

ghost use Rattle.std.specs.Prelude.{◌≡◌, ◌≤◌, ◌<◌, ◌↔◌, true, false, length, nat_le, IfOk, IsErrOf, IsTrue};
ghost use Rattle.std.specs.List.{count_by};
ghost use Rattle.std.specs.Cmp.{partial_equiv_from_equiv};
ghost use Rattle.std.specs.Hash as fed;
ghost use Rattle.std.proofs.Common.{ap};
ghost use Rattle.hv_value.specs.Same.{same_by};
ghost use Rattle.hv_value.specs.SameLaws.{same_by-decides, same_by-equiv};
ghost use Rattle.hv_bucket.specs.Buckets.{are_text_buckets, bounds_rise, is_below_first, is_reached, text_place};
ghost use Rattle.hv_bucket.specs.Keys.{AreKeys, IsKey};

use crate::keys::{LONG, is_reached, key_of};
use crate::{BucketErr, MAX_BUCKETS, Place};
use hv_value::{Mem, Text};
use std::alloc::Global;
use std::hash::{Hash, Hasher};
use std::marker::Model;

/// The most left boundaries among which texts are looked up by keys.
const MOST_KEYS: usize = 16;

/// Texts in buckets: each from its left boundary on, up to the next one's, and the last without end.
#[derive(Drop)]
pub struct TextBuckets {
    bounds: Vec<Text>,
    // the keys of the first boundaries
    keys: [u64; MOST_KEYS],
}

impl Model for TextBuckets {
    ghost use Rattle.std.specs.Prelude.{ℕ, List};
    ghost use Rattle.hv_bucket.specs.Limits.{AreKeyedLimits};

    ghost Value = { List (List ℕ) };

    ghost view = { λ buckets. buckets.bounds.items };

    ghost invariant = { λ buckets. AreKeyedLimits buckets.bounds.items buckets.keys };
}

impl TextBuckets {
    /// Buckets with these left boundaries. It takes no memory.
    pub fn new(bounds: Vec<Text>) -> Result<TextBuckets, BucketErr>
        ensures ok { IfOk result (λ buckets. buckets ≡ bounds.items) }
        ensures bad_buckets { IsErrOf result BucketErr.BadBuckets ↔ (are_text_buckets bounds.items ≡ false) }
        ensures no_memory { IsErrOf result BucketErr.Memory → ⊥ }
    {
        if are_bounds(bounds.as_slice()) {
            let keys = keys_of(bounds.as_slice());
            Ok(TextBuckets { bounds, keys })
        } else {
            Err(BucketErr::BadBuckets)
        }
    }

    /// The left boundaries, which rise: 1 to 1,024 of them.
    pub fn bounds(&self) -> &[Text]
        ensures value { result.now ≡ self.now }
        ensures sound { are_text_buckets self.now ≡ true }
    {
        self.bounds.as_slice()
    }

    /// Equal buckets.
    pub fn copied(&self, alloc: Global) -> Mem<TextBuckets>
        ensures { IfOk result (λ buckets. buckets ≡ self.now) }
    {
        Ok(TextBuckets {
            bounds: copied_texts(alloc, self.bounds.as_slice())?,
            keys: self.keys,
        })
    }

    /// Whether two have the same boundaries.
    pub fn same(&self, other: &TextBuckets) -> bool
        ensures { IsTrue result ↔ (self.now ≡ other.now) }
    {
        are_same_texts(self.bounds(), other.bounds())
    }

    /// Where a text is put.
    #[inline(always)]
    pub(crate) fn place_of(&self, text: &str) -> Place
        ensures { result ≡ text_place self.now text.now }
    {
        let reached = reached_bounds(self.bounds.as_slice(), self.keys.as_slice(), text);
        match reached.checked_sub(1) {
            Some(bucket) => Place::In(bucket as u32),
            None => Place::Outside,
        }
    }
}

/// The keys of the first of some texts.
fn keys_of(texts: &[Text]) -> [u64; MOST_KEYS]
    ensures { AreKeys texts.now result }
{
    let mut keys = [0; MOST_KEYS];
    for i in 0..texts.len().min(MOST_KEYS) {
        keys[i] = key_of(texts[i].as_str().as_bytes());
    }
    keys
}

/// How many of some rising boundaries aren't above a text, given the keys of the first ones.
#[inline(always)]
fn reached_bounds(bounds: &[Text], keys: &[u64], text: &str) -> usize
    requires rise { bounds_rise bounds.now ≡ true }
    requires keys { AreKeys bounds.now keys.now }
    ensures value { result ≡ count_by (is_reached text.now) bounds.now }
    ensures few { result ≤ length bounds.now }
{
    if keys.len() < bounds.len() {
        return reached_by_halves(bounds, text);
    }
    let key = key_of(text.as_bytes());
    if text.len() < LONG {
        reached_keys(&keys[..bounds.len()], key)
    } else {
        reached_one_by_one(bounds, keys, text, key)
    }
}

/// How many of some keys aren't above another one. No jump hangs on them.
#[inline(always)]
fn reached_keys(keys: &[u64], key: u64) -> usize
    ensures { result ≡ count_by (λ bound. nat_le bound key) keys.now }
{
    let mut reached = 0;
    for bound in keys {
        if *bound <= key {
            reached += 1;
        }
    }
    reached
}

/// How many of some boundaries aren't above a text, all with their keys: for a text whose key others have too.
#[inline(never)]
fn reached_one_by_one(bounds: &[Text], keys: &[u64], text: &str, key: u64) -> usize
    requires few { length bounds.now ≤ length keys.now }
    requires bounds { AreKeys bounds.now keys.now }
    requires text { IsKey text.now key }
    ensures { result ≡ count_by (is_reached text.now) bounds.now }
{
    let mut reached = 0;
    for i in 0..bounds.len() {
        if is_reached(bounds[i].as_str(), keys[i], text, key) {
            reached += 1;
        }
    }
    reached
}

/// How many of some rising boundaries aren't above a text: for more of them than have keys.
#[inline(never)]
fn reached_by_halves(bounds: &[Text], text: &str) -> usize
    requires { bounds_rise bounds.now ≡ true }
    ensures value { result ≡ count_by (is_reached text.now) bounds.now }
    ensures few { result ≤ length bounds.now }
{
    bounds.partition_point(|bound| bound.as_str() <= text)
}

fn copied_texts(alloc: Global, texts: &[Text]) -> Mem<Vec<Text>>
    ensures { IfOk result (λ copy. copy.items ≡ texts.now) }
{
    let mut copy = Vec::with_capacity(alloc, texts.len())?;
    for text in texts {
        copy.push(text.copy(alloc)?)?;
    }
    Ok(copy)
}

fn are_bounds(bounds: &[Text]) -> bool
    ensures { result ≡ are_text_buckets bounds.now }
{
    !bounds.is_empty() && bounds.len() <= MAX_BUCKETS as usize && do_rise(bounds)
}

fn do_rise(texts: &[Text]) -> bool
    ensures { result ≡ bounds_rise texts.now }
{
    let mut rest = texts;
    while let [first, after @ ..] = rest {
        if !is_below_next(first.as_str(), after) {
            return false;
        }
        rest = after;
    }
    true
}

/// Whether a text is below the first of some, where there is one.
fn is_below_next(text: &str, texts: &[Text]) -> bool
    ensures { result ≡ is_below_first text.now texts.now }
{
    match texts {
        [] => true,
        [first, ..] => text < first.as_str(),
    }
}

fn are_same_texts(a: &[Text], b: &[Text]) -> bool
    ensures { IsTrue result ↔ (a.now ≡ b.now) }
{
    a == b
}

/// Two are equal where their boundaries are, in turn.
impl PartialEq for TextBuckets {
    ghost use Rattle.hv_bucket.specs.contracts.texts.TextBuckets as row;

    ghost eq = { same_by row.the_row.coded };

    ghost laws = { partial_equiv_from_equiv (same_by-equiv row.the_row.coded) };

    fn eq(&self, other: &TextBuckets) -> bool {
        self.same(other)
    }
}

impl Eq for TextBuckets {
    ghost use Rattle.hv_bucket.specs.contracts.texts.TextBuckets as row;

    ghost laws = { same_by-equiv row.the_row.coded };
}

impl Hash for TextBuckets {
    ghost use Rattle.hv_bucket.specs.contracts.texts.TextBuckets as row;

    ghost hash_input = { fed.slice fed.str };

    ghost respects_eq = { λ x y e. ap (fed.slice fed.str) ((same_by-decides row.the_row.coded x y).0 e) };

    fn hash<H: Hasher>(&self, state: &mut H) {
        self.bounds.as_slice().hash(state);
    }
}
