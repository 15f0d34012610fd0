//! The words that ask for a flash with spare blocks, judged without memory.
ghost use Rattle.std.specs.Prelude.{◌≡◌, ◌≤◌, IfSome, map, option_map, is_some};
ghost use Rattle.pk_remap.specs.declared.layout.TheConstants.{MOST_SPARES};
ghost use Rattle.pk_top.specs.Words as spec;
ghost use Rattle.pk_top.specs.Texts.{seen};
ghost use Rattle.pk_top.specs.Spared as spared;
ghost use Rattle.pk_top.specs.SparedTexts.{seen_spared};

use crate::word::Word;
use crate::words::{VALUE_LENGTHS, is, plain};
use pk_asm::{is_bytes_word, key, number};
use pk_remap::{MOST_SPARES, inner_shape};

/// A number of spare blocks, and the words to obey over them.
#[derive(Clone, Copy)]
pub struct Spared<'a> {
    pub spares: u16,
    pub rest: &'a [&'a str],
}

/// Whether the operands are a key and a value whose length is a field of an entry.
#[tactic(auto, using(crate::proofs::Judging::two_judged))]
fn is_put(operands: &[&str]) -> bool
    ensures { result ≡ is_some (spec.put_of (map (λ w. w.now) operands.now)) }
{
    match operands {
        [key_word, bytes] => {
            let has_key = key(key_word.as_bytes()).is_some();
            let has_value = is_bytes_word(bytes.as_bytes());
            let is_short = bytes.len() / 2 < VALUE_LENGTHS;
            has_key & (has_value & is_short)
        }
        _ => false,
    }
}

/// Whether a word may be obeyed over a flash with `spares` spare blocks.
fn fits(spares: u16, word: &Word) -> bool
    requires { spares ≤ MOST_SPARES }
    ensures { result ≡ spared.fits_spares spares (seen word.now) }
{
    match word {
        Word::Make(limits) => inner_shape(limits.shape(), spares).is_ok(),
        Word::Serve(_) => true,
        Word::Ask(_) => true,
        Word::Assemble => false,
        Word::Show => false,
    }
}

/// Whether words may be obeyed over a flash with `spares` spare blocks.
#[tactic(auto, unfolding(crate::specs::Words::word_of), using(crate::proofs::Judging::put_fits))]
fn may_obey(spares: u16, words: &[&str]) -> bool
    requires { spares ≤ MOST_SPARES }
    ensures { result ≡ spared.fits_spares_if spares (spec.word_of (map (λ w. w.now) words.now)) }
{
    let Some((name, operands)) = words.split_first() else {
        return false;
    };
    if is(name.as_bytes(), b"put") {
        return is_put(operands);
    }
    match plain(name.as_bytes(), operands) {
        Some(word) => fits(spares, &word),
        None => false,
    }
}

/// The words after the number, over this many spare blocks.
#[tactic(auto, using(crate::proofs::Judging::spared_some, crate::proofs::Judging::spared_unfit, crate::proofs::Judging::spared_none, crate::proofs::Judging::spared_many))]
fn with_spares<'a>(spares: u32, rest: &'a [&'a str]) -> Option<Spared<'a>>
    ensures seen { option_map seen_spared result
        ≡ spared.spared_with (map (λ w. w.now) rest.now) spares }
    ensures some { IfSome result (λ s. 1 ≤ s.spares) }
    ensures few { IfSome result (λ s. s.spares ≤ MOST_SPARES) }
{
    if spares < 1 || spares > MOST_SPARES as u32 {
        return None;
    }
    let spares = spares as u16;
    if may_obey(spares, rest) {
        Some(Spared { spares, rest })
    } else {
        None
    }
}

/// What words of the form `spared S WORDS..` ask for; nothing if they are refused.
pub fn spared_words<'a>(words: &'a [&'a str]) -> Option<Spared<'a>>
    ensures seen { option_map seen_spared result
        ≡ spared.spared_form (map (λ w. w.now) words.now) }
    ensures some { IfSome result (λ s. 1 ≤ s.spares) }
    ensures few { IfSome result (λ s. s.spares ≤ MOST_SPARES) }
{
    let (name, operands) = words.split_first()?;
    let (count, rest) = operands.split_first()?;
    if is(name.as_bytes(), b"spared") {
        with_spares(number(count.as_bytes())?, rest)
    } else {
        None
    }
}
