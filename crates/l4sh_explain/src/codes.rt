//! The codes that any part of the product says: a letter or two, and a number.
use crate::families::FAMILIES;
use ipc_lines::read_decimal;
use std::alloc::AllocError;

/// Codes of the same letters, which are counted from 1.
#[derive(Clone, Copy)]
pub(crate) struct Family {
    pub(crate) letters: &'static str,
    /// Who says them, and of what.
    pub(crate) about: &'static str,
    /// What each of them means.
    pub(crate) meanings: &'static [&'static str],
    /// What helps, of each of them.
    pub(crate) helps: &'static [&'static str],
}

/// A code that there is.
#[derive(Clone, Copy)]
pub(crate) struct Code {
    pub(crate) letters: &'static str,
    pub(crate) number: u64,
    pub(crate) meaning: &'static str,
    pub(crate) helps: &'static str,
}

/// The code that a word spells, with small letters or capitals.
pub(crate) fn code_of(word: &[u8]) -> Option<Code> {
    let end = word.iter().position(u8::is_ascii_digit)?;
    let (letters, digits) = word.split_at(end);
    code_in(family_of(&FAMILIES, letters)?, read_decimal(digits)?)
}

fn family_of<'a>(families: &'a [Family], letters: &[u8]) -> Option<&'a Family> {
    families.iter().find(|family| family.letters.as_bytes().eq_ignore_ascii_case(letters))
}

fn code_in(family: &Family, number: u64) -> Option<Code> {
    let place = usize::try_from(number).ok()?.checked_sub(1)?;
    Some(Code {
        letters: family.letters,
        number,
        meaning: *family.meanings.get(place)?,
        helps: *family.helps.get(place)?,
    })
}

/// What a code of a refusal or of a fault means, as K6, F4, S1 or TR3.
pub fn meaning_of(word: &[u8]) -> Option<&'static str> {
    Some(code_of(word)?.meaning)
}

/// The same of a number behind the letter of its family, as a refusal or a FAULT tells it.
pub fn meaning_behind(letter: u8, number: u8) -> Option<&'static str> {
    Some(code_in(family_of(&FAMILIES, &[letter])?, u64::from(number))?.meaning)
}

/// The code of an error code that the C client made of it: 16 times the letter and the number, and
/// 1 more of a call without a send phase.
pub(crate) fn code_in_word(word: u64) -> Option<Code> {
    if word % 16 > 1 || word > 0xf_ffff {
        return None;
    }
    let letter = [u8::try_from(word / 0x1000).ok()?];
    code_in(family_of(&FAMILIES, &letter)?, word / 16 % 0x100)
}

/// Appends the families, a line each.
pub(crate) fn put_families(text: &mut String) -> Result<(), AllocError> {
    for family in &FAMILIES {
        let (letters, last) = (family.letters, family.meanings.len());
        write!(text, "\n  {letters}1 to {letters}{last}: {}", family.about)?;
    }
    Ok(())
}
