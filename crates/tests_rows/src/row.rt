//! A row: its kind, its inputs, and what is answered.
//!
//! A reader of a row has no fault to hand on: where a word isn't what it should be the row notes why, and the
//! reader goes on with the simplest value there is. A row that has noted something has no answer.

use crate::octets::{octet_of, octets_of};
use crate::shown::Hex;
use snmp_ber::{Level, Oid};
use std::alloc::{AllocError, Global};
use std::str;

/// Why a row has no answer.
#[derive(Clone, Copy)]
pub enum Fault {
    OutOfMemory,
    Unread(&'static str),
}

impl From<AllocError> for Fault {
    fn from(_: AllocError) -> Fault {
        Fault::OutOfMemory
    }
}

/// An input, and the octets that it spells, if it spells some.
#[derive(Drop)]
pub struct Word<'a> {
    text: &'a str,
    octets: Result<Vec<u8>, Fault>,
}

/// The inputs of a row. `kept` are the octets that a word with `@` begins with.
pub fn words_of<'a>(
    alloc: Global,
    inputs: &'a str,
    kept: &[u8],
) -> Result<Vec<Word<'a>>, AllocError> {
    let mut words = Vec::new(alloc);
    if inputs.is_empty() {
        return Ok(words);
    }
    for text in inputs.split(' ') {
        let octets = octets_of(alloc, text, kept);
        words.push(Word { text, octets })?;
    }
    Ok(words)
}

/// A row: its words, how many of them are read, and the answer or why there is none.
#[derive(Drop)]
pub struct Row<'a> {
    pub alloc: Global,
    pub kind: &'a str,
    words: &'a [Word<'a>],
    at: usize,
    fault: Option<Fault>,
    answer: String,
}

impl<'a> Row<'a> {
    /// A row of which no word is read.
    pub fn new(alloc: Global, kind: &'a str, words: &'a [Word<'a>]) -> Row<'a> {
        Row {
            alloc,
            kind,
            words,
            at: 0,
            fault: None,
            answer: String::new(alloc),
        }
    }

    /// Notes why the row has no answer. The first reason stays.
    fn refuse(&mut self, fault: Fault) {
        if self.fault.is_none() {
            self.fault = Some(fault);
        }
    }

    /// Notes what the row should be or have.
    pub fn fail(&mut self, why: &'static str) {
        self.refuse(Fault::Unread(why));
    }

    /// Notes that there is no subject for a row of this kind.
    pub fn fail_kind(&mut self) {
        self.fail("no row is of this kind");
    }

    /// Notes that memory is wanting.
    pub fn lack(&mut self) {
        self.refuse(Fault::OutOfMemory);
    }

    /// Puts an item behind the others.
    pub fn add<T: Drop>(&mut self, list: &mut Vec<T>, item: T) {
        if list.push(item).is_err() {
            self.lack();
        }
    }

    /// Answers the text, or notes that memory was wanting for it.
    pub fn say(&mut self, text: Result<String, AllocError>) {
        match text {
            Ok(text) => self.answer = text,
            Err(_) => self.lack(),
        }
    }

    /// Answers these words.
    pub fn tell(&mut self, text: &str) {
        self.say(text.to_string(self.alloc));
    }

    /// Answers that there is nothing.
    pub fn none(&mut self) {
        self.tell("none");
    }

    /// Answers octets in hex.
    pub fn show(&mut self, octets: &[u8]) {
        self.say(format!(in self.alloc; "{}", Hex(octets)));
    }

    /// The answer, once each word is read.
    pub fn end(self) -> Result<String, Fault> {
        match self.fault {
            Some(fault) => Err(fault),
            None if self.at >= self.words.len() => Ok(self.answer),
            None => Err(Fault::Unread("a row of this kind has fewer words")),
        }
    }

    /// How many words are still to be read.
    pub fn left(&self) -> usize {
        self.words.len().saturating_sub(self.at)
    }

    /// The next word.
    fn next(&mut self) -> Option<&'a Word<'a>> {
        let word = self.words.get(self.at);
        self.at = self.at.saturating_add(1);
        if word.is_none() {
            self.fail("a row of this kind has more words");
        }
        word
    }

    /// The text of the next word.
    pub fn word(&mut self) -> &'a str {
        match self.next() {
            Some(word) => word.text,
            None => "",
        }
    }

    /// The octets that the next word spells.
    pub fn octets(&mut self) -> &'a [u8] {
        let Some(word) = self.next() else {
            return b"";
        };
        match &word.octets {
            Ok(octets) => octets,
            Err(fault) => {
                self.refuse(*fault);
                b""
            }
        }
    }

    /// The octets of the next word itself, of which `-` has none.
    pub fn name(&mut self) -> &'a [u8] {
        match self.word() {
            "-" => b"",
            text => text.as_bytes(),
        }
    }

    /// The text that the octets of the next word are.
    pub fn said(&mut self) -> &'a str {
        match str::from_utf8(self.octets()) {
            Ok(text) => text,
            Err(_) => {
                self.fail("a text");
                ""
            }
        }
    }

    /// The number that was read.
    fn whole<N: From<u8> + Copy>(&mut self, number: Option<N>) -> N {
        match number {
            Some(number) => number,
            None => {
                self.fail("a number");
                N::from(0)
            }
        }
    }

    /// A decimal number.
    pub fn number(&mut self) -> u64 {
        let number = self.word().parse::<u64>().ok();
        self.whole(number)
    }

    /// A decimal number of 32 bits.
    pub fn number32(&mut self) -> u32 {
        let number = self.word().parse::<u32>().ok();
        self.whole(number)
    }

    /// A decimal number with its sign.
    pub fn signed(&mut self) -> i64 {
        let number = self.word().parse::<i64>().ok();
        self.whole(number)
    }

    /// A decimal number of 32 bits with its sign.
    pub fn signed32(&mut self) -> i32 {
        let number = self.word().parse::<i32>().ok();
        self.whole(number)
    }

    /// A place, counted from 0.
    pub fn place(&mut self) -> usize {
        let number = self.word().parse::<usize>().ok();
        self.whole(number)
    }

    /// An octet in hex.
    pub fn octet(&mut self) -> u8 {
        let number = octet_of(self.word());
        self.whole(number)
    }

    /// A security level.
    pub fn level(&mut self) -> Level {
        match self.word() {
            "noAuthNoPriv" => Level::NoAuthNoPriv,
            "authNoPriv" => Level::AuthNoPriv,
            "authPriv" => Level::AuthPriv,
            _ => {
                self.fail("a security level");
                Level::NoAuthNoPriv
            }
        }
    }

    /// The arcs of an identifier.
    pub fn arcs(&mut self) -> Option<Oid> {
        let arcs = Oid::from_text(self.word());
        if arcs.is_none() {
            self.fail("arcs");
        }
        arcs
    }
}

/// Puts another value there. A proof sees nothing of the type that is let go here.
pub fn put<T: Drop>(place: &mut T, value: T) {
    *place = value;
}

/// Puts another value there, or the first one.
pub fn keep<T: Drop>(place: &mut Option<T>, value: T) {
    *place = Some(value);
}
