ghost use Rattle.std.specs.Prelude.{◌≡◌, ◌∷◌, [], Ok, Err, Some, None, IfErr, OnOk, option_map, option_and_then, option_copied};
ghost use Rattle.std.specs.List.{list_any, list_all};
ghost use Rattle.hd_calls.specs.Ssas.{read_qualification};
ghost use Rattle.hd_calls.specs.Satisfies.{is_true_of};
ghost use Rattle.hd_calls.specs.SearchKeys.{are_groups_past};
ghost use Rattle.hd_ssa.specs.Texts.{groups_in, single_of, single_groups};
ghost use Rattle.hd_ssa.specs.Questions.{passes};
ghost use Rattle.hd_ssa.specs.LeastKeys.{bound_of, greater_of, lesser_of, least_bound};
ghost use Rattle.hd_ssa.specs.EqualKeys.{equal_to};

use crate::comparison::{Comparison, ComparisonRead};
use crate::question::Question;
use hd_dbd::{Key, SegType, Status, compare_keys};
use std::marker::Model;

/// The comparisons of a qualification: the only one, or the type of which it speaks and its text in the call.
#[derive(Drop)]
enum Comparisons<'a> {
    One(Comparison<'a>),
    More(&'a SegType, &'a [u8]),
}

/// A qualification. It takes no memory: of several comparisons, whoever asks reads the text again.
#[derive(Drop)]
pub struct Qualification<'a> {
    comparisons: Comparisons<'a>,
}

impl<'a> Model for Qualification<'a> {
    ghost use Rattle.std.specs.Prelude.{List};
    ghost use Rattle.hd_calls.specs.Ssas.{Comparison};
    ghost use Rattle.hd_ssa.specs.Comparisons.{groups_of, IsReadWhole};

    ghost Value = { List (List Comparison) };

    ghost view = { λ q. groups_of q.comparisons };

    ghost invariant = { λ q. IsReadWhole q.comparisons };
}

impl<'a> Qualification<'a> {
    /// The qualification of one comparison with which a text begins, where it is one.
    pub fn single(segment: &'a SegType, text: &'a [u8]) -> Option<Qualification<'a>>
        ensures { result ≡ single_groups segment.now text.now }
    {
        let comparison = Comparison::closed(segment, text)?;
        Some(Qualification {
            comparisons: Comparisons::One(comparison),
        })
    }

    /// The qualification with which a text begins, as far as its closing bracket; else the first fault in it.
    pub fn read(segment: &'a SegType, text: &'a [u8]) -> Result<Qualification<'a>, Status>
        ensures { result ≡ read_qualification segment.now text.now }
    {
        let read = match ComparisonRead::read(segment, text) {
            Ok(read) => read,
            Err(status) => return Err(status),
        };
        if read.closes() {
            return Ok(Qualification {
                comparisons: Comparisons::One(read.comparison),
            });
        }
        check_comparisons(segment, text)?;
        Ok(Qualification {
            comparisons: Comparisons::More(segment, text),
        })
    }

    /// Whether all comparisons of one of the groups are true of a segment's bytes.
    pub fn holds(&self, bytes: &[u8]) -> bool
        ensures { result ≡ list_any (λ group. list_all (λ c. is_true_of bytes.now c) group) self.now }
    {
        match &self.comparisons {
            Comparisons::One(comparison) => comparison.is_true_of(bytes),
            Comparisons::More(segment, text) => {
                some_group_passes(segment, text, Question::IsTrue(bytes))
            }
        }
    }

    /// Whether the key in a segment's bytes is past a comparison of each group.
    pub fn is_past(&self, key: Key, bytes: &[u8]) -> bool
        ensures { result ≡ are_groups_past key bytes.now self.now }
    {
        match &self.comparisons {
            Comparisons::One(comparison) => comparison.is_past(key, bytes),
            Comparisons::More(segment, text) => {
                !some_group_passes(segment, text, Question::IsNotPast(key, bytes))
            }
        }
    }

    /// The least of the groups' greatest bounds of the key.
    pub fn least_bound(&self, key: Key) -> Option<&'a [u8]>
        ensures { option_copied result ≡ least_bound key None self.now }
    {
        match &self.comparisons {
            Comparisons::One(comparison) => comparison.bound_of(key),
            Comparisons::More(segment, text) => least_bound(segment, text, key),
        }
    }

    /// The value of the only comparison, where that asks that the whole key is equal to it.
    pub fn key_asked(&self, key: Key) -> Option<&'a [u8]>
        ensures { option_copied result ≡ option_and_then (λ c. equal_to key c) (single_of self.now) }
    {
        match &self.comparisons {
            Comparisons::One(comparison) => comparison.equal_to(key),
            Comparisons::More(_, _) => None,
        }
    }
}

/// The first fault of a text that begins with no qualification.
fn check_comparisons(segment: &SegType, text: &[u8]) -> Result<(), Status>
    ensures ok { OnOk result (read_qualification segment.now text.now ≡ Ok (groups_in segment.now text.now)) }
    ensures fault { IfErr result (λ e. read_qualification segment.now text.now ≡ Err e) }
{
    let mut rest = text;
    for step in 0..text.len() {
        let _ = step;
        let read = match ComparisonRead::read(segment, rest) {
            Ok(read) => read,
            Err(status) => return Err(status),
        };
        if read.closes() {
            return Ok(());
        }
        if !read.connects() {
            return Err(Status::AJ);
        }
        rest = read.rest();
    }
    Err(Status::AJ)
}

/// Whether all comparisons of one of the groups of a qualification pass.
fn some_group_passes(segment: &SegType, text: &[u8], question: Question<'_>) -> bool
    requires { read_qualification segment.now text.now ≡ Ok (groups_in segment.now text.now) }
    ensures { result ≡ list_any (λ group. list_all (λ c. passes question.entry c) group) (groups_in segment.now text.now) }
{
    let mut rest = text;
    let mut so_far = true;
    for step in 0..text.len() {
        let _ = step;
        let read = match ComparisonRead::read(segment, rest) {
            Ok(read) => read,
            Err(_) => return false,
        };
        so_far = question.is_passed(so_far, &read);
        if read.closes() {
            return so_far;
        }
        if !read.connects() {
            return false;
        }
        if read.joins() {
            rest = read.rest();
            continue;
        }
        if so_far {
            return true;
        }
        so_far = true;
        rest = read.rest();
    }
    false
}

/// The greater of two keys, or the only one.
fn greater_of<'a>(first: Option<&'a [u8]>, second: Option<&'a [u8]>) -> Option<&'a [u8]>
    ensures { option_copied result ≡ greater_of (option_copied first.entry) (option_copied second.entry) }
{
    match (first, second) {
        (None, second) => second,
        (first, None) => first,
        (Some(one), Some(other)) => {
            if compare_keys(one, other).is_lt() {
                Some(other)
            } else {
                Some(one)
            }
        }
    }
}

/// The greatest bound of the comparisons so far in a group and one more, if one of them has a bound.
fn with_comparison<'a>(
    bound: Option<&'a [u8]>,
    read: &ComparisonRead<'a>,
    key: Key,
) -> Option<&'a [u8]>
    ensures { option_copied result ≡ greater_of (option_copied bound.entry) (bound_of key read.now.comparison) }
{
    greater_of(bound, read.comparison.bound_of(key))
}

/// The least bound of the groups so far and one more, if that has a bound.
fn with_group<'a>(least: Option<&'a [u8]>, bound: Option<&'a [u8]>) -> Option<&'a [u8]>
    ensures { option_copied result ≡ option_map (λ b. lesser_of (option_copied least.entry) b) (option_copied bound.entry) }
{
    let bound = bound?;
    match least {
        Some(least) => {
            if compare_keys(bound, least).is_lt() {
                Some(bound)
            } else {
                Some(least)
            }
        }
        None => Some(bound),
    }
}

/// The least of the groups' greatest bounds of a key.
#[inline(never)]
fn least_bound<'a>(segment: &'a SegType, text: &'a [u8], key: Key) -> Option<&'a [u8]>
    requires { read_qualification segment.now text.now ≡ Ok (groups_in segment.now text.now) }
    ensures { option_copied result ≡ least_bound key None (groups_in segment.now text.now) }
{
    let mut rest = text;
    let mut bound = None;
    let mut least = None;
    for step in 0..text.len() {
        let _ = step;
        let read = match ComparisonRead::read(segment, rest) {
            Ok(read) => read,
            Err(_) => return None,
        };
        bound = with_comparison(bound, &read, key);
        if read.closes() {
            return with_group(least, bound);
        }
        if !read.connects() {
            return None;
        }
        if read.joins() {
            rest = read.rest();
            continue;
        }
        least = with_group(least, bound);
        if least.is_none() {
            return None;
        }
        bound = None;
        rest = read.rest();
    }
    None
}
