//! The words and the files that a host hands over.
ghost use Rattle.std.specs.Prelude.{◌≡◌, ◌≢◌, ◌++◌, ◌∷◌, [], All, AllPairs, IfOk, OnOk, string_bytes};
ghost use Rattle.std.specs.Str.{IsUtf8};
ghost use Rattle.emtp_card.specs.Lines.{lines_of};
ghost use Rattle.emtp_page.specs.Given.{files_given, named, three_files, two_files};
ghost use Rattle.emtp_run.specs.Words.{texts};

use emtp_card::next_line;
use std::alloc::{AllocError, Global};

/// The words of a text, one a line.
pub fn read_words(alloc: Global, text: &[u8]) -> Result<Vec<String>, AllocError>
    requires { All IsUtf8 (lines_of text.now) }
    ensures { IfOk result (λ words. texts words.items ≡ lines_of text.now) }
{
    let mut words = Vec::new(alloc);
    let mut rest = text;
    while let Some((line, tail)) = next_line(rest) {
        add_word(&mut words, alloc, line)?;
        rest = tail;
    }
    Ok(words)
}

/// Adds a word.
fn add_word(words: &mut Vec<String>, alloc: Global, word: &[u8]) -> Result<(), AllocError>
    requires { IsUtf8 word.now }
    ensures { OnOk result (texts words.new.items ≡ texts words.old.items ++ word.now ∷ []) }
{
    let word = String::from_str(alloc, text(word))?;
    words.push(word)?;
    Ok(())
}

/// The text of these bytes.
fn text(bytes: &[u8]) -> &str
    requires { IsUtf8 bytes.now }
    ensures { result.now ≡ bytes.now }
{
    match std::str::from_utf8(bytes) {
        Ok(text) => text,
        Err(_) => "",
    }
}

/// One file.
fn one_file(alloc: Global, name: &str, bytes: &[u8]) -> Result<Vec<(String, Vec<u8>)>, AllocError>
    ensures named { IfOk result (λ files. named files.items ≡ (name.now, bytes.now) ∷ []) }
    ensures differ { IfOk result (λ files. AllPairs (λ a b. string_bytes a.0 ≢ string_bytes b.0) files.items) }
{
    let mut files = Vec::new(alloc);
    files.push(file(alloc, name, bytes)?)?;
    Ok(files)
}

/// Two files, or none where their names are the same.
fn two_files(
    alloc: Global,
    first_name: &str,
    first: &[u8],
    second_name: &str,
    second: &[u8],
) -> Result<Vec<(String, Vec<u8>)>, AllocError>
    ensures named { IfOk result (λ files. named files.items ≡ two_files first_name.now first.now second_name.now second.now) }
    ensures differ { IfOk result (λ files. AllPairs (λ a b. string_bytes a.0 ≢ string_bytes b.0) files.items) }
{
    let mut files = Vec::new(alloc);
    if first_name != second_name {
        files.push(file(alloc, first_name, first)?)?;
        files.push(file(alloc, second_name, second)?)?;
    }
    Ok(files)
}

/// Three files, or none where two of their names are the same.
fn three_files(
    alloc: Global,
    first_name: &str,
    first: &[u8],
    second_name: &str,
    second: &[u8],
    third_name: &str,
    third: &[u8],
) -> Result<Vec<(String, Vec<u8>)>, AllocError>
    ensures named { IfOk result
        (λ files. named files.items
        ≡ three_files first_name.now first.now second_name.now second.now third_name.now third.now) }
    ensures differ { IfOk result (λ files. AllPairs (λ a b. string_bytes a.0 ≢ string_bytes b.0) files.items) }
{
    if first_name != second_name && first_name != third_name && second_name != third_name {
        three_apart(
            alloc,
            first_name,
            first,
            second_name,
            second,
            third_name,
            third,
        )
    } else {
        Ok(Vec::new(alloc))
    }
}

/// Three files of different names.
fn three_apart(
    alloc: Global,
    first_name: &str,
    first: &[u8],
    second_name: &str,
    second: &[u8],
    third_name: &str,
    third: &[u8],
) -> Result<Vec<(String, Vec<u8>)>, AllocError>
    requires first { first_name.now ≢ second_name.now }
    requires second { first_name.now ≢ third_name.now }
    requires third { second_name.now ≢ third_name.now }
    ensures named { IfOk result (λ files. named files.items
        ≡ (first_name.now, first.now) ∷ (second_name.now, second.now) ∷ (third_name.now, third.now) ∷ []) }
    ensures differ { IfOk result (λ files. AllPairs (λ a b. string_bytes a.0 ≢ string_bytes b.0) files.items) }
{
    let mut files = Vec::new(alloc);
    files.push(file(alloc, first_name, first)?)?;
    files.push(file(alloc, second_name, second)?)?;
    files.push(file(alloc, third_name, third)?)?;
    Ok(files)
}

/// A file of this name, which holds these bytes.
fn file(alloc: Global, name: &str, bytes: &[u8]) -> Result<(String, Vec<u8>), AllocError>
    ensures name { IfOk result (λ file. string_bytes file.0 ≡ name.now) }
    ensures bytes { IfOk result (λ file. file.1.items ≡ bytes.now) }
{
    let name = String::from_str(alloc, name)?;
    let bytes = Vec::from_slice(alloc, bytes)?;
    Ok((name, bytes))
}

/// The files of these names: the first name is that of the first bytes, and so on. Names that aren't all different, and more
/// names than there are bytes, give no file. No command reads more than three.
pub fn files(
    alloc: Global,
    names: &[String],
    first: &[u8],
    second: &[u8],
    third: &[u8],
) -> Result<Vec<(String, Vec<u8>)>, AllocError>
    ensures named { IfOk result (λ files. named files.items ≡ files_given (texts names.now) first.now second.now third.now) }
    ensures differ { IfOk result (λ files. AllPairs (λ a b. string_bytes a.0 ≢ string_bytes b.0) files.items) }
{
    match names {
        [a] => one_file(alloc, a.as_str(), first),
        [a, b] => two_files(alloc, a.as_str(), first, b.as_str(), second),
        [a, b, c] => three_files(
            alloc,
            a.as_str(),
            first,
            b.as_str(),
            second,
            c.as_str(),
            third,
        ),
        _ => Ok(Vec::new(alloc)),
    }
}
