ghost use Rattle.std.specs.Prelude.{◌≡◌, ◌≤◌, ◌<◌, [], ◌∷◌, IfSome, IsNone, length, take, drop, true};
ghost use Rattle.script_text.specs.declared.token.Token.{Token};
ghost use Rattle.script_text.specs.Fronts.{before, NoneBegins};
ghost use Rattle.script_text.specs.Tokens.{sign_of, token_of, tokens, goes_on, plain, pieces, is_at_piece};

use crate::is_in_comment;
use plain_text::{Name, is_run_byte, is_white, number_of};

/// A token of a script: a word, a number of at most 18 digits, or a sign.
#[derive(Clone, Copy, Debug)]
pub enum Token {
    Word(Name),
    Number(u64),
    Assign,
    Open,
    Close,
    Comma,
}

fn sign_of(piece: &[u8]) -> Option<Token>
    ensures { result ≡ sign_of piece.now }
{
    match piece {
        b":=" => Some(Token::Assign),
        b"[" => Some(Token::Open),
        b"]" => Some(Token::Close),
        b"," => Some(Token::Comma),
        _ => None,
    }
}

// The token that the piece is, if it is one.
fn token_of(piece: &[u8]) -> Option<Token>
    ensures { result ≡ token_of piece.now }
{
    if let Some(name) = Name::of(piece) {
        return Some(Token::Word(name));
    }
    if let Some(number) = number_of(piece) {
        return Some(Token::Number(number));
    }
    sign_of(piece)
}

// Whether the second byte belongs to the token of the first.
fn goes_on(byte: u8, next: u8) -> bool
    ensures { result ≡ goes_on byte next }
{
    is_run_byte(byte) && is_run_byte(next) || byte == b':' && next == b'='
}

// The bytes from the first piece on.
fn skip_blank(bytes: &[u8]) -> &[u8]
    ensures same { pieces (plain result.now) ≡ pieces (plain bytes.now) }
    ensures start { is_at_piece result.now ≡ true }
    ensures shorter { length result.now ≤ length bytes.now }
{
    let mut comment = false;
    for (at, byte) in bytes.iter().enumerate() {
        comment = is_in_comment(comment, *byte);
        if !comment && !is_white(*byte) {
            return &bytes[at..];
        }
    }
    &bytes[bytes.len()..]
}

// The number of bytes of the first piece.
fn piece_len(bytes: &[u8]) -> usize
    requires some { 0 < length bytes.now }
    requires start { is_at_piece bytes.now ≡ true }
    ensures piece { pieces (plain bytes.now) ≡ take result bytes.now ∷ pieces (plain (drop result bytes.now)) }
    ensures some { 0 < result }
    ensures short { result ≤ length bytes.now }
{
    let mut at = 0;
    while at + 1 < bytes.len() && goes_on(bytes[at], bytes[at + 1]) {
        at += 1;
    }
    at + 1
}

/// The first token and the bytes behind it. None exactly where the bytes are no tokens, or none at all.
pub fn next_token(bytes: &[u8]) -> Option<(Token, &[u8])>
    ensures some { IfSome result (λ r. tokens bytes.now ≡ before (r.0 ∷ []) (tokens r.1.now)) }
    ensures none { IsNone result → NoneBegins (λ (t : Token). t ∷ []) (tokens bytes.now) }
    ensures shorter { IfSome result (λ r. length r.1.now < length bytes.now) }
{
    let bytes = skip_blank(bytes);
    if bytes.is_empty() {
        return None;
    }
    let (piece, rest) = bytes.split_at(piece_len(bytes));
    match token_of(piece) {
        Some(token) => Some((token, rest)),
        None => None,
    }
}
