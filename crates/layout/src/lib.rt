// How what is read of an image is laid out in words: a tape with a section for each part of a model, and a plan that says where each begins.
// The rows of facts, tests and actions have eleven words, three and eight, all alike.
// A fact: type, activation, latency, eight slot values. A test: buffer, type, mask, eight terms at their slots.
// An action: buffer, deed, mask, eight terms at their slots; the deed is 0 to modify, a type to request, 64 to clear.
// A query is one word: its buffer, and eight times its kind.
// What stands at a slot that the mask does not name, or after the deed of a clear, says nothing.
#![tactic(auto)]

ghost use Rattle.std.specs.Prelude.{◌≡◌, ◌+◌, ◌≤◌, length};
ghost use Rattle.std.proofs.lemmas.List.Edits.{sets};
ghost use Rattle.layout.specs.Plans.{places_for, plan_of};

// How many words stand for one thing: a row; a rule, which has eight tests, how many queries, eight queries and eight actions; a rule's head; an entry of the table.
pub const ROW_WORDS: usize = 11;

pub const RULE_WORDS: usize = 185;

pub const HEAD_WORDS: usize = 4;

pub const ENTRY_WORDS: usize = 9;

// Where in a rule's words the number of its queries stands, the queries, and the actions; the tests stand from 0 on.
pub const ASKED_AT: usize = 88;

pub const QUERIES_AT: usize = 89;

pub const ACTIONS_AT: usize = 97;

// The words of a buffer, and of the eight of a state.
pub const BUFFER_WORDS: usize = 11;

pub const STATE_WORDS: usize = 88;

// Four tapes: one that costs little to clear, one with room for a store besides, one with room for 64 rules and 120 facts, or for 39 rules and 512 facts, and a store,
// and one with room for the most facts and rules that an image can have, and a store.
pub const SMALL_TAPE: usize = 4096;

pub const STORE_TAPE: usize = 7168;

pub const MIDDLE_TAPE: usize = 16960;

pub const LARGE_TAPE: usize = 58328;

// Where the first sections of every tape begin: the slot counts of 64 types, the opening state, the facts.
pub const TYPES_AT: usize = 0;

pub const OPENING_AT: usize = 64;

pub const FACTS_AT: usize = 152;

// The words of a store: the count, and nine for each of its places.
pub const STORE_WORDS: usize = 2305;

pub const STORE_PLACES: u16 = 256;

pub const PLACE_WORDS: usize = 9;

/// The version of an image, its model's counts and failure latency; how many facts there are places for, and whether the places past the image's facts are a store's;
/// and where its sections begin on a tape: chains, heads, rows, order, and the end.
#[derive(Clone, Copy, Debug, PartialEq, Eq)]
pub struct Plan {
    pub version: u16,
    pub buffers: u16,
    pub declared: u16,
    pub rules: u16,
    pub facts: u16,
    pub failure: u16,
    pub places: u16,
    pub learns: bool,
    pub chains: usize,
    pub heads: usize,
    pub rows: usize,
    pub order: usize,
    pub end: usize,
}

// How many facts there are places for, where an image has so many: 256 more where a store is lent.
fn places_for(facts: u16, learns: bool) -> u16
    requires { facts ≤ 1024 }
    ensures { result ≡ places_for facts learns }
{
    if learns { facts + STORE_PLACES } else { facts }
}

/// The plan for an image of that version with these counts, and for a store if one is lent: each section as long as it must be, one after the other.
pub fn plan_for(
    version: u16,
    buffers: u16,
    declared: u16,
    rules: u16,
    facts: u16,
    failure: u16,
    learns: bool,
) -> Plan
    requires { facts ≤ 1024 }
    ensures { result ≡ plan_of version buffers declared rules facts failure (places_for facts learns) learns }
{
    let n = rules as usize;
    let places = places_for(facts, learns);
    let chains = FACTS_AT + ROW_WORDS * (places as usize);
    let heads = chains + 64 + places as usize;
    let rows = heads + HEAD_WORDS * n;
    let order = rows + RULE_WORDS * n;
    Plan {
        version,
        buffers,
        declared,
        rules,
        facts,
        failure,
        places,
        learns,
        chains,
        heads,
        rows,
        order,
        end: order + 2 * n,
    }
}

/// Words into words from o on.
pub fn copy_into(words: &mut [u16], o: usize, from: &[u16])
    requires { o + length from.now ≤ length words.old }
    ensures { words.new ≡ sets words.old o from.now }
{
    words[o..o + from.len()].copy_from_slice(from);
}
