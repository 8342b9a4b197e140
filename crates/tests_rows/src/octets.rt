//! The octets that a word of a row is.

use crate::row::Fault;
use snmp_ber::read_decimal;
use std::alloc::Global;

/// Why a word has no octets, other than that memory runs out.
const NO_OCTETS: Fault = Fault::Unread("a word that spells no octets");

/// A place in octets.
fn place_of(text: &str) -> Option<usize> {
    match read_decimal(text.as_bytes(), 1_000_000) {
        Some(place) => Some(place as usize),
        None => None,
    }
}

/// The octets of a text: `_` is a space, and `|` a line feed.
fn text_of(alloc: Global, text: &[u8]) -> Result<Vec<u8>, Fault> {
    let mut octets = text.to_vec(alloc)?;
    for octet in octets.iter_mut() {
        *octet = match *octet {
            b'_' => b' ',
            b'|' => b'\n',
            other => other,
        };
    }
    Ok(octets)
}

/// An octet in hex.
pub fn octet_of(text: &str) -> Option<u8> {
    u8::from_str_radix(text, 16).ok()
}

/// So many times an octet in hex.
fn repeated(alloc: Global, octet: &str, count: &str) -> Result<Vec<u8>, Fault> {
    let (Some(octet), Some(count)) = (octet_of(octet), place_of(count)) else {
        return Err(NO_OCTETS);
    };
    Ok(vec![in alloc; octet; count]?)
}

/// Puts another octet at a place: `5=31`. Gives whether there is one.
fn is_changed(octets: &mut [u8], edit: &str) -> bool {
    let Some((place, octet)) = edit.split_once('=') else {
        return false;
    };
    let (Some(place), Some(octet)) = (place_of(place), octet_of(octet)) else {
        return false;
    };
    match octets.get_mut(place) {
        Some(held) => {
            *held = octet;
            true
        }
        None => false,
    }
}

/// The octets from a place to another.
fn part_of<'a>(octets: &'a [u8], from: &str, to: &str) -> Result<&'a [u8], Fault> {
    let (Some(from), Some(to)) = (place_of(from), place_of(to)) else {
        return Err(NO_OCTETS);
    };
    match octets.get(from..to) {
        Some(part) => Ok(part),
        None => Err(NO_OCTETS),
    }
}

/// The kept octets with changes, or a part of them: `5=31,6=7f` or `39..57`.
fn edited(alloc: Global, kept: &[u8], edits: &str) -> Result<Vec<u8>, Fault> {
    if let Some((from, to)) = edits.split_once("..") {
        return Ok(part_of(kept, from, to)?.to_vec(alloc)?);
    }
    let mut octets = kept.to_vec(alloc)?;
    if edits.is_empty() {
        return Ok(octets);
    }
    for edit in edits.split(',') {
        if !is_changed(&mut octets, edit) {
            return Err(NO_OCTETS);
        }
    }
    Ok(octets)
}

/// The octets of a word in hex.
fn decoded(alloc: Global, word: &str) -> Result<Vec<u8>, Fault> {
    match hex::decode(alloc, word) {
        Ok(octets) => Ok(octets),
        Err(hex::FromHexError::OutOfMemory) => Err(Fault::OutOfMemory),
        Err(_) => Err(NO_OCTETS),
    }
}

/// The octets that the word is.
pub fn octets_of(alloc: Global, word: &str, kept: &[u8]) -> Result<Vec<u8>, Fault> {
    if let Some(text) = word.strip_prefix('\'') {
        return text_of(alloc, text.as_bytes());
    }
    if let Some(edits) = word.strip_prefix('@') {
        return edited(alloc, kept, edits);
    }
    if word == "-" {
        return Ok(Vec::new(alloc));
    }
    match word.split_once('*') {
        Some((octet, count)) => repeated(alloc, octet, count),
        None => decoded(alloc, word),
    }
}
