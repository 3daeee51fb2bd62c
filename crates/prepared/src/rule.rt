// The words of a rule, as one value that is read.
ghost use Rattle.std.specs.Prelude.{◌≡◌, ◌+◌, ◌≤◌, ◌<◌, length, get_or};

use layout::{ASKED_AT, QUERIES_AT};
use std::marker::Model;

/// Words among which a rule's begin at a place: at most eight tests of eleven words each, and from word 88 on how many queries there are, at most eight, and a word for each.
#[derive(Drop)]
pub struct RuleWords<'a> {
    words: &'a [u16],
    at: usize,
    tests: usize,
}

impl<'a> Model for RuleWords<'a> {
    ghost use Rattle.std.specs.Prelude.{◌+◌, ◌≤◌, length, get_or};
    ghost use Rattle.prepared.specs.Views.{Standing};

    ghost Value = { Standing };

    ghost view = { λ r. record { words = r.words.now; at = r.at; tests = r.tests } };

    ghost invariant = { λ r. (r.tests ≤ 8) × (r.at + 97 ≤ length r.words.now) × (get_or r.words.now (r.at + 88) 0 ≤ 8) };
}

impl<'a> RuleWords<'a> {
    /// The words of a rule that begin at a place, with so many tests.
    pub fn new(words: &'a [u16], at: usize, tests: usize) -> RuleWords<'a>
        requires { (tests ≤ 8) × (at + 97 ≤ length words.now) × (get_or words.now (at + 88) 0 ≤ 8) }
        ensures { result ≡ record { words = words.now; at = at; tests = tests } }
    {
        RuleWords { words, at, tests }
    }

    /// The words among which the rule's stand.
    pub fn words(&self) -> &'a [u16]
        ensures value { result.now ≡ self.now.words }
        ensures room { self.now.at + 97 ≤ length result.now }
    {
        self.words
    }

    /// Where the rule's words begin.
    pub fn at(&self) -> usize
        ensures { result ≡ self.now.at }
    {
        self.at
    }

    /// How many tests the rule has, eight at most.
    pub fn tests(&self) -> usize
        ensures value { result ≡ self.now.tests }
        ensures few { result ≤ 8 }
    {
        self.tests
    }

    /// How many queries the rule has, eight at most.
    pub fn queries(&self) -> usize
        ensures value { result ≡ get_or self.now.words (self.now.at + 88) 0 }
        ensures few { result ≤ 8 }
    {
        let words = self.words;
        words[self.at + ASKED_AT] as usize
    }

    /// The word of query i: its buffer, and eight times its kind.
    pub fn query(&self, i: usize) -> u16
        requires { i < 8 }
        ensures { result ≡ get_or self.now.words (self.now.at + 89 + i) 0 }
    {
        let words = self.words;
        words[self.at + QUERIES_AT + i]
    }
}
