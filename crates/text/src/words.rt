// A line cut into words, at every blank.
ghost use Rattle.std.specs.Prelude.{◌≡◌, map, IfOk, Decides};
ghost use Rattle.text.specs.Words.{TheWords};

use std::alloc::{AllocError, Global};

const BLANK: u8 = b' ';

// The words of a line, of which there is one list: two blanks side by side have an empty word between them.
pub fn split_words<'a>(heap: Global, line: &'a [u8]) -> Result<Vec<&'a [u8]>, AllocError>
    ensures { IfOk result (λ v. TheWords line.now (map (λ x. x.now) v.items)) }
{
    line.split(|b| *b == BLANK).collect(heap)
}

// Whether a word is a name: where one name is asked for, and no match of several.
pub fn is(word: &[u8], name: &str) -> bool
    ensures { Decides result (word.now ≡ name.now) }
{
    word == name.as_bytes()
}
