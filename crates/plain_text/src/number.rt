ghost use Rattle.std.specs.Prelude.{◌≡◌, ◌≤◌, length, true};
ghost use Rattle.std.specs.List.{list_all};
ghost use Rattle.plain_text.specs.Bytes.{is_digit, is_number, number_of, value_onto};

use crate::bytes::is_digit;

fn all_digits(piece: &[u8]) -> bool
    ensures { result ≡ list_all is_digit piece.now }
{
    piece.iter().all(|byte| is_digit(*byte))
}

fn is_number(piece: &[u8]) -> bool
    ensures { result ≡ is_number piece.now }
{
    let Some((first, rest)) = piece.split_first() else {
        return false;
    };
    all_digits(piece) && rest.len() < 18 && (*first != b'0' || rest.is_empty())
}

fn value_of(digits: &[u8]) -> u64
    requires digits { list_all is_digit digits.now ≡ true }
    requires short { length digits.now ≤ 18 }
    ensures { result ≡ value_onto 0 digits.now }
{
    let mut n = 0;
    for digit in digits {
        n = 10 * n + (*digit as u64 - 48);
    }
    n
}

/// The number that the word is: 0, or at most 18 digits of which the first is not 0.
pub fn number_of(word: &[u8]) -> Option<u64>
    ensures { result ≡ number_of word.now }
{
    if is_number(word) {
        Some(value_of(word))
    } else {
        None
    }
}
