// Sentences of several pieces.
use crate::notes::Notes;
use ak_address::{Address, print_number};
use std::alloc::{AllocError, Global};

/// A piece of a sentence.
#[derive(Clone, Copy)]
pub enum Piece<'a> {
    Text(&'a [u8]),
    /// In decimal digits.
    Number(u64),
    /// As `host:port`.
    Address(&'a Address),
}

/// Says the pieces at once, as they stand. Where there is no memory for them nothing is said.
pub fn say<N: Notes>(alloc: Global, notes: &mut N, pieces: &[Piece<'_>]) {
    if let Ok(text) = joined(alloc, pieces) {
        notes.say(&text);
    }
}

pub(crate) fn joined(alloc: Global, pieces: &[Piece<'_>]) -> Result<Vec<u8>, AllocError> {
    let mut text = Vec::new(alloc);
    'pieces: for piece in pieces {
        match piece {
            Piece::Text(bytes) => text.extend_from_slice(bytes)?,
            Piece::Number(number) => print_number(*number, &mut text)?,
            Piece::Address(address) => address.print_into(&mut text)?,
        }
    }
    Ok(text)
}
