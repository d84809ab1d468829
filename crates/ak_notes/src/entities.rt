// Why a text that is offered is no entity.
use crate::lines::say_of_line;
use crate::notes::Notes;
use crate::sentence::{Piece, say};
use ak_address::Text;
use std::alloc::{AllocError, Global};

/// Says why the text that is offered in a line is no entity, where these are the types: it names a type that is not listed, and
/// which are, or its id is none.
pub fn say_no_entity<N: Notes>(
    alloc: Global,
    notes: &mut N,
    line: u64,
    entity: &[u8],
    types: &[Text],
) {
    if types.is_empty() {
        return say_of_line(alloc, notes, line, entity, b" has more than 64 bytes");
    }
    if names_one(entity, types) {
        return say_of_line(
            alloc,
            notes,
            line,
            entity,
            b" has no id of 1 to 64 bytes after its type",
        );
    }
    if let Ok(pieces) = unlisted(alloc, line, entity, types) {
        say(alloc, notes, &pieces);
    }
}

// The bytes before its first `/` are one of these names.
fn names_one(entity: &[u8], types: &[Text]) -> bool {
    match entity.iter().position(|b| *b == b'/') {
        Some(slash) => {
            let name = &entity[..slash];
            types.iter().any(|each| each.bytes() == name)
        }
        None => false,
    }
}

// That a text names a type that is not listed, and which are.
fn unlisted<'a>(
    alloc: Global,
    line: u64,
    entity: &'a [u8],
    types: &'a [Text],
) -> Result<Vec<Piece<'a>>, AllocError> {
    let mut pieces = Vec::new(alloc);
    pieces.push(Piece::Text(b"line "))?;
    pieces.push(Piece::Number(line))?;
    pieces.push(Piece::Text(b": offer names a type that is not listed: "))?;
    pieces.push(Piece::Text(entity))?;
    pieces.push(Piece::Text(b"; the types are"))?;
    'types: for name in types {
        pieces.push(Piece::Text(b" "))?;
        pieces.push(Piece::Text(name.bytes()))?;
    }
    pieces.push(Piece::Text(b"\n"))?;
    Ok(pieces)
}
