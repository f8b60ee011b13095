// The program's words.

use bc_data::list::{Bytes, List};
use std::alloc::{AllocError, Global};
use std::env::FillError;
use std::rt::Env;

// The word at a place, as its bytes, or none behind the last.
fn word_at<R: Env>(alloc: Global, rt: &R, place: usize) -> Result<Option<Bytes>, AllocError> {
    let mut len = 256usize;
    // The words of a program are far shorter than the last of these lengths.
    for _ in 0..40 {
        let mut word = vec![in alloc; 0u8; len]?;
        match rt.arg(place, &mut word) {
            Ok(n) => {
                word.truncate(n);
                return Ok(Some(Bytes::from_vec(word)));
            }
            Err(FillError::NotPresent) => return Ok(None),
            Err(FillError::TooLong) => len = len.saturating_mul(2),
        }
    }
    Err(AllocError)
}

/// The words that the program was given, without its name.
pub fn program_words<R: Env>(alloc: Global, rt: &R) -> Result<List<Bytes>, AllocError> {
    let mut words = List::new(alloc);
    for place in 1..usize::MAX {
        let Some(word) = word_at(alloc, rt, place)? else {
            return Ok(words);
        };
        words.push(word)?;
    }
    Ok(words)
}
