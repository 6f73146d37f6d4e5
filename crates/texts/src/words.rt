//! A text cut into words.
ghost use Rattle.std.specs.Prelude.{◌≡◌, ◌++◌, map, IfOk, string_bytes, MatchOption, OnOk, ◌==◌};
ghost use Rattle.std.specs.Str.{NoCharPasses};
ghost use Rattle.texts.specs.Words.{FirstLine, words_of};

use std::alloc::{AllocError, Global};

// Adds the words of a text that has no `#`.
fn push_words(words: &mut Vec<String>, heap: Global, text: &str) -> Result<(), AllocError>
    requires { NoCharPasses (λ c. c == 35) text.now }
    ensures { OnOk result (map string_bytes words.new.items ≡ map string_bytes words.old.items ++ words_of text.now) }
{
    for word in text.split_whitespace() {
        words.push(String::from_str(heap, word)?)?;
    }
    Ok(())
}

// What follows the first line of a text, if that line has an end.
fn next_line(text: &str) -> Option<&str>
    ensures { MatchOption result (NoCharPasses (λ c. c == 10) text.now) (λ rest. FirstLine text.now rest.now) }
{
    let (_, rest) = text.split_once('\n')?;
    Some(rest)
}

/// The words of a text: white space stands between them, and from a `#` to the end of its line is a comment.
pub fn split_words(heap: Global, text: &str) -> Result<Vec<String>, AllocError>
    ensures { IfOk result (λ v. map string_bytes v.items ≡ words_of text.now) }
{
    let mut words = Vec::new(heap);
    let mut rest = text;
    // from comment to comment: line by line, a text of many short lines takes many times as long
    while let Some((shown, comment)) = rest.split_once('#') {
        push_words(&mut words, heap, shown)?;
        let Some(after) = next_line(comment) else {
            return Ok(words);
        };
        rest = after;
    }
    push_words(&mut words, heap, rest)?;
    Ok(words)
}
