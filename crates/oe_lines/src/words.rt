// The words of a line.
use crate::Fault;
use std::alloc::Global;
use std::str::FromStr;

/// The first word of a line, and what stands behind the blank after it.
pub fn first_word(line: &str) -> (&str, &str) {
    match line.split_once(' ') {
        Some((word, rest)) => (word, rest),
        None => (line, ""),
    }
}

/// The first eight words of a line, each empty where the line has fewer. The eighth is all that is left.
pub fn words_of(line: &str) -> [&str; 8] {
    let mut words = line.splitn(8, ' ');
    [
        words.next().unwrap_or(""),
        words.next().unwrap_or(""),
        words.next().unwrap_or(""),
        words.next().unwrap_or(""),
        words.next().unwrap_or(""),
        words.next().unwrap_or(""),
        words.next().unwrap_or(""),
        words.next().unwrap_or(""),
    ]
}

/// The parts of a word before and behind a separator. Refuses: a word without one.
pub fn parts_of<'a>(word: &'a str, separator: &str) -> Result<(&'a str, &'a str), Fault> {
    match word.split_once(separator) {
        Some((one, two)) => Ok((one, two)),
        None => Err(Fault::Line),
    }
}

/// The number that a word spells. Refuses: a word that spells none of its type.
pub fn number_of<T: FromStr>(word: &str) -> Result<T, Fault>
where
    T::Err: Drop,
{
    match word.parse::<T>() {
        Ok(number) => Ok(number),
        Err(_) => Err(Fault::Line),
    }
}

/// Numbers with commas between them, or none for `-`.
pub fn numbers_of<T: FromStr + Drop>(alloc: Global, word: &str) -> Result<Vec<T>, Fault>
where
    T::Err: Drop,
{
    let mut numbers = Vec::new(alloc);
    if word == "-" {
        return Ok(numbers);
    }
    for number in word.split(',') {
        numbers.push(number_of(number)?)?;
    }
    Ok(numbers)
}

/// The bytes that hexadecimal digits spell, or none for `-`.
pub fn bytes_of(alloc: Global, digits: &str) -> Result<Vec<u8>, Fault> {
    if digits == "-" {
        return Ok(Vec::new(alloc));
    }
    match hex::decode(alloc, digits) {
        Ok(bytes) => Ok(bytes),
        Err(_) => Err(Fault::Line),
    }
}
