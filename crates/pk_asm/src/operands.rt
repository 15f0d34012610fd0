//! The words of a line after its first.
ghost use Rattle.std.specs.Prelude.{◌≡◌, ◌==◌, ◌∷◌};
ghost use Rattle.std.specs.List.{position};
ghost use Rattle.pk_asm.specs.Words.{blank, words};
ghost use Rattle.pk_asm.specs.Operands.{rest_words, words_in};

/// The words after the first word of a line; no line has more than three.
#[derive(Clone, Copy)]
pub enum Operands<'a> {
    Nothing,
    One(&'a [u8]),
    Two(&'a [u8], &'a [u8]),
    Three(&'a [u8], &'a [u8], &'a [u8]),
    Many(&'a [u8], &'a [u8], &'a [u8], &'a [u8], Option<&'a [u8]>),
}

/// The place of the first blank.
fn blank_at(line: &[u8]) -> Option<usize>
    ensures { result ≡ position (λ byte. byte == blank) line.now }
{
    line.iter().position(|byte| *byte == b' ')
}

/// The first word, and what follows the blank after it.
pub fn split_word(line: &[u8]) -> (&[u8], Option<&[u8]>)
    ensures { words line.now ≡ result.0.now ∷ rest_words result.1 }
{
    match blank_at(line) {
        Some(at) => (&line[..at], Some(&line[at + 1..])),
        None => (line, None),
    }
}

/// The words of what follows the first.
pub fn words_behind<'a>(rest: Option<&'a [u8]>) -> Operands<'a>
    ensures { words_in result ≡ rest_words rest.entry }
{
    match rest {
        None => Operands::Nothing,
        Some(rest) => {
            let (first, rest) = split_word(rest);
            match rest {
                None => Operands::One(first),
                Some(rest) => more_operands(first, rest),
            }
        }
    }
}

/// The words after the first operand.
fn more_operands<'a>(first: &'a [u8], rest: &'a [u8]) -> Operands<'a>
    ensures { words_in result ≡ first.entry.now ∷ words rest.entry.now }
{
    let (second, rest) = split_word(rest);
    match rest {
        None => Operands::Two(first, second),
        Some(rest) => {
            let (third, rest) = split_word(rest);
            match rest {
                None => Operands::Three(first, second, third),
                Some(rest) => {
                    let (fourth, rest) = split_word(rest);
                    Operands::Many(first, second, third, fourth, rest)
                }
            }
        }
    }
}
