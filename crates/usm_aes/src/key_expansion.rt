//! The key expansion.
ghost use Rattle.std.specs.Prelude.{◌≡◌, ◌<◌, ◌≤◌};
ghost use Rattle.usm_aes.specs.Aes.{expanded_word, rot_word as rot_word_of, round_constant as round_constant_of};
ghost use Rattle.usm_aes.specs.Aes.{schedule, sub_word as sub_word_of, xor_words as xor_words_of};
ghost use Rattle.usm_aes.specs.Lanes.{AreLaneKeys, IsLaneKey, round_key as round_key_of};

use crate::lanes::{lane_key, substitute_lanes, to_tower};
use std::marker::Model;
use std::simd::prelude::*;

// The words of a schedule: four for each round, and four before the first.
const WORDS: usize = 44;

// The keys that lanes in the basis take: all but the last round's.
const LANE_KEYS: usize = 10;

// The powers of x from x^0 on: the first octets of the round constants, of which the others are 0.
static ROUND_CONSTANTS: [u8; 10] = [0x01, 0x02, 0x04, 0x08, 0x10, 0x20, 0x40, 0x80, 0x1B, 0x36];

/// The key schedule (FIPS 197, section 5.2): the 44 words of four octets that a key expands to.
#[derive(Drop)]
pub struct Schedule {
    words: [[u8; 4]; WORDS],
    // The same words as the rounds take them.
    lane_keys: [[u8; 16]; LANE_KEYS],
}

impl Model for Schedule {
    ghost use Rattle.std.specs.Prelude.{List, ℕ};
    ghost use Rattle.usm_aes.specs.Lanes.{AreLaneKeys};

    ghost Value = { List (List ℕ) };

    ghost view = { λ s. s.words };

    ghost invariant = { λ s. AreLaneKeys s.words s.lane_keys };
}

impl Schedule {
    /// The same schedule. This takes no memory.
    pub fn copy(&self) -> Schedule
        ensures { result ≡ self.now }
    {
        Schedule {
            words: self.words,
            lane_keys: self.lane_keys,
        }
    }

    // The words of a round, joined.
    pub(crate) fn round_key(&self, round: usize) -> [u8; 16]
        requires { round < 11 }
        ensures { result ≡ round_key_of self.now round }
    {
        join_words(&self.words, round)
    }

    // The same for lanes in the basis whose rows are still to be shifted once for each round.
    pub(crate) fn lane_key(&self, round: usize) -> [u8; 16]
        requires { round < 10 }
        ensures { IsLaneKey self.now round result }
    {
        self.lane_keys[round]
    }
}

/// The key expansion (FIPS 197, section 5.2) of a key of 128 bits.
pub fn expand(key: &[u8; 16]) -> Schedule
    ensures { result ≡ schedule key.now }
{
    // Words that are all 0 have keys for lanes that are all 0.
    let mut schedule = Schedule {
        words: [[0; 4]; WORDS],
        lane_keys: [[0; 16]; LANE_KEYS],
    };
    expand_words(key, &mut schedule.words);
    fill_lane_keys(&schedule.words, &mut schedule.lane_keys);
    schedule
}

// Writes the round keys for lanes.
fn fill_lane_keys(words: &[[u8; 4]; WORDS], keys: &mut [[u8; 16]; LANE_KEYS])
    ensures { AreLaneKeys words.now keys.new }
{
    for round in 0..LANE_KEYS {
        keys[round] = lane_key(join_words(words, round), round);
    }
}

// The words of a round, joined.
#[inline(always)]
fn join_words(words: &[[u8; 4]; WORDS], round: usize) -> [u8; 16]
    requires { round < 11 }
    ensures { result ≡ round_key_of words.now round }
{
    let a = words[4 * round];
    let b = words[4 * round + 1];
    let c = words[4 * round + 2];
    let d = words[4 * round + 3];
    [
        a[0], a[1], a[2], a[3], b[0], b[1], b[2], b[3], c[0], c[1], c[2], c[3], d[0], d[1], d[2],
        d[3],
    ]
}

// Writes the words of the key expansion.
fn expand_words(key: &[u8; 16], words: &mut [[u8; 4]; WORDS])
    ensures { words.new ≡ schedule key.now }
{
    words[0] = [key[0], key[1], key[2], key[3]];
    words[1] = [key[4], key[5], key[6], key[7]];
    words[2] = [key[8], key[9], key[10], key[11]];
    words[3] = [key[12], key[13], key[14], key[15]];
    for i in 4..WORDS {
        words[i] = expand_word(words[i - 4], words[i - 1], i);
    }
}

// Word i, from the word four before it and the word before it.
fn expand_word(four_before: [u8; 4], before: [u8; 4], i: usize) -> [u8; 4]
    requires from_four { 4 ≤ i }
    requires in_schedule { i < 44 }
    ensures { result ≡ expanded_word four_before before i }
{
    if i % 4 != 0 {
        return xor_words(four_before, before);
    }
    let changed = xor_words(rot_word(sub_word(before)), round_constant(i / 4));
    xor_words(four_before, changed)
}

// The constant of a round, counted from 1.
fn round_constant(round: usize) -> [u8; 4]
    requires from_one { 1 ≤ round }
    requires at_most_ten { round ≤ 10 }
    ensures { result ≡ round_constant_of round }
{
    [ROUND_CONSTANTS[round - 1], 0, 0, 0]
}

// The word turned left by one octet.
fn rot_word(word: [u8; 4]) -> [u8; 4]
    ensures { result ≡ rot_word_of word }
{
    [word[1], word[2], word[3], word[0]]
}

// The S-box at each octet of the word, with no memory that is read at a secret place.
fn sub_word(word: [u8; 4]) -> [u8; 4]
    ensures { result ≡ sub_word_of word }
{
    let lanes = u8x16::from_array([
        word[0], word[1], word[2], word[3], 0, 0, 0, 0, 0, 0, 0, 0, 0, 0, 0, 0,
    ]);
    let once = substitute_lanes(to_tower(lanes)).to_array();
    [once[0], once[1], once[2], once[3]]
}

// The sum of two words.
fn xor_words(a: [u8; 4], b: [u8; 4]) -> [u8; 4]
    ensures { result ≡ xor_words_of a b }
{
    [a[0] ^ b[0], a[1] ^ b[1], a[2] ^ b[2], a[3] ^ b[3]]
}
