//! The words that the program was started with.

ghost use Rattle.std.specs.Prelude.{◌≡◌, ◌↔◌, IfOk, IfSome, IsTrue, OnErr};
ghost use Rattle.ak_driver.specs.WordsContracts.{IsArgument, HasWords, NamesCommand, words_of};

use ak_address::Text;
use ak_options::is_command_name;
use ak_outside::Arguments;
use std::alloc::{AllocError, Global};
use std::env::FillError;

// The size of the first buffer for a word. It doubles until the word fits.
const FIRST_SIZE: usize = 256;

// The argument at an index, whole, and none past the last one. That there is none is found without memory.
fn argument<A: Arguments>(
    alloc: Global,
    arguments: &A,
    index: usize,
) -> Result<Option<Text>, AllocError>
    ensures { IfSome (A.arguments arguments.now) (λ all. IsArgument all index result) }
{
    if let Err(FillError::NotPresent) = arguments.argument(index, &mut []) {
        return Ok(None);
    }
    let mut size = FIRST_SIZE;
    'sizes: loop {
        let mut buffer = vec![in alloc; 0; size]?;
        match arguments.argument(index, &mut buffer) {
            Ok(length) => return Ok(Some(Text::from_bytes(alloc, &buffer[..length])?)),
            Err(FillError::NotPresent) => return Ok(None),
            Err(FillError::TooLong) => size *= 2,
        }
    }
}

// Whether the first word is the name of a command, none of which is longer than the buffer. It takes no memory.
pub(crate) fn names_command<A: Arguments>(arguments: &A) -> bool
    ensures { IfSome (A.arguments arguments.now) (λ all. IsTrue result ↔ NamesCommand (words_of all)) }
{
    let mut buffer = [0; 6];
    match arguments.argument(1, &mut buffer) {
        Ok(length) => is_command_name(&buffer[..length]),
        Err(_) => false,
    }
}

/// The words after the program's name: all of them, in order, each whole, as bytes: one that is not UTF-8 is a word like
/// any other. Only memory can fail, and that there is no word is found without memory: a program started without words
/// has nothing to hold.
pub fn collect_words<A: Arguments>(alloc: Global, arguments: &A) -> Result<Vec<Text>, AllocError>
    ensures all { IfOk result (λ words. IfSome (A.arguments arguments.now) (λ all. words.items ≡ words_of all)) }
    ensures memory { OnErr result (IfSome (A.arguments arguments.now) HasWords) }
{
    let mut words = Vec::new(alloc);
    'words: while let Some(word) = argument(alloc, arguments, words.len() + 1)? {
        words.push(word)?;
    }
    Ok(words)
}
