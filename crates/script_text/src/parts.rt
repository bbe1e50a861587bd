ghost use Rattle.std.specs.Prelude.{◌≡◌, ◌<◌, [], ◌∷◌, ℕ, Bool, List, Some, map, length, IfSome, IfOk, IsNone};
ghost use Rattle.script_text.specs.Grammar.{closed, form_tokens, list, parts_of, part_tokens, target_tokens};
ghost use Rattle.script_text.specs.declared.token.Token.TheVariants.{Word, Assign, Open};
ghost use Rattle.script_text.specs.declared.form.Part.TheVariants as part;
ghost use Rattle.script_text.specs.Fronts.{before, divider, number, word, AreNormal, IsNormal, NoneBegins, NoneIs};
ghost use Rattle.script_text.specs.Tokens.{tokens};
ghost use Rattle.script_text.specs.declared.token.Token.{Token};

use crate::form::{Form, Part};
use crate::is_blank;
use crate::token::{Token, next_token};
use plain_text::Name;
use simplex::{Lists, Memory, Numbers};
use std::alloc::Global;

// A word in front, and the bytes behind it. None exactly where no word is the first token.
fn read_word(bytes: &[u8]) -> Option<(Name, &[u8])>
    ensures some { IfSome result (λ r. tokens bytes.now ≡ before (word r.0) (tokens r.1.now)) }
    ensures none { IsNone result → NoneBegins word (tokens bytes.now) }
    ensures shorter { IfSome result (λ r. length r.1.now < length bytes.now) }
{
    let Some((token, rest)) = next_token(bytes) else {
        return None;
    };
    match token {
        Token::Word(name) => Some((name, rest)),
        _ => None,
    }
}

// A number in front, and the bytes behind it. None exactly where no number is the first token.
fn read_number(bytes: &[u8]) -> Option<(u64, &[u8])>
    ensures some { IfSome result (λ r. tokens bytes.now ≡ before (number r.0) (tokens r.1.now)) }
    ensures none { IsNone result → NoneBegins number (tokens bytes.now) }
    ensures shorter { IfSome result (λ r. length r.1.now < length bytes.now) }
{
    let Some((token, rest)) = next_token(bytes) else {
        return None;
    };
    match token {
        Token::Number(n) => Some((n, rest)),
        _ => None,
    }
}

// The bytes behind an opening bracket. None exactly where that is not the first token.
fn read_open(bytes: &[u8]) -> Option<&[u8]>
    ensures some { IfSome result (λ r. tokens bytes.now ≡ before (Token.Open ∷ []) (tokens r.now)) }
    ensures none { IsNone result →
        (us : List Token) → tokens bytes.now ≡ Some (Token.Open ∷ us) → ⊥ }
    ensures shorter { IfSome result (λ r. length r.now < length bytes.now) }
{
    let Some((token, rest)) = next_token(bytes) else {
        return None;
    };
    match token {
        Token::Open => Some(rest),
        _ => None,
    }
}

// The bytes behind a closing bracket. None exactly where that is not the first token.
fn read_close(bytes: &[u8]) -> Option<&[u8]>
    ensures some { IfSome result (λ r. tokens bytes.now ≡ before (Token.Close ∷ []) (tokens r.now)) }
    ensures none { IsNone result →
        (us : List Token) → tokens bytes.now ≡ Some (Token.Close ∷ us) → ⊥ }
    ensures shorter { IfSome result (λ r. length r.now < length bytes.now) }
{
    let Some((token, rest)) = next_token(bytes) else {
        return None;
    };
    match token {
        Token::Close => Some(rest),
        _ => None,
    }
}

// The bytes behind the sign of an assignment. None exactly where that is not the first token.
fn read_assign(bytes: &[u8]) -> Option<&[u8]>
    ensures some { IfSome result (λ r. tokens bytes.now ≡ before (Token.Assign ∷ []) (tokens r.now)) }
    ensures none { IsNone result →
        (us : List Token) → tokens bytes.now ≡ Some (Token.Assign ∷ us) → ⊥ }
    ensures shorter { IfSome result (λ r. length r.now < length bytes.now) }
{
    let Some((token, rest)) = next_token(bytes) else {
        return None;
    };
    match token {
        Token::Assign => Some(rest),
        _ => None,
    }
}

// What divides the items of a list, and the bytes behind it: whether it is the bracket behind the last, or else
// a comma. None exactly where neither is the first token.
fn read_divider(bytes: &[u8]) -> Option<(bool, &[u8])>
    ensures some { IfSome result (λ r. tokens bytes.now ≡ before (divider r.0 ∷ []) (tokens r.1.now)) }
    ensures none { IsNone result → (last : Bool) (us : List Token) →
        tokens bytes.now ≡ Some (divider last ∷ us) → ⊥ }
    ensures shorter { IfSome result (λ r. length r.1.now < length bytes.now) }
{
    let Some((token, rest)) = next_token(bytes) else {
        return None;
    };
    match token {
        Token::Close => Some((true, rest)),
        Token::Comma => Some((false, rest)),
        Token::Word(_) | Token::Number(_) | Token::Assign | Token::Open => None,
    }
}

// At least one number, with commas, and the bracket that closes them.
fn read_numbers(alloc: Global, bytes: &[u8]) -> Result<Option<(Numbers, &[u8])>, Memory>
    ensures some { IfOk result (λ r. IfSome r (λ p.
        tokens bytes.now ≡ before (closed (map number p.0)) (tokens p.1.now))) }
    ensures none { IfOk result (λ r. IsNone r → (n : ℕ) →
        NoneBegins (λ (ns : List ℕ). closed (map number (n ∷ ns))) (tokens bytes.now)) }
    ensures shorter { IfOk result (λ r. IfSome r (λ p. length p.1.now < length bytes.now)) }
{
    let mut numbers = Numbers::new(alloc);
    let mut rest = bytes;
    'items: loop {
        let Some((n, behind)) = read_number(rest) else {
            return Ok(None);
        };
        numbers.push(n)?;
        let Some((last, next)) = read_divider(behind) else {
            return Ok(None);
        };
        if last {
            return Ok(Some((numbers, next)));
        }
        rest = next;
    }
}

// The numbers of a list behind the bracket that opens it, with the one that closes it.
fn read_opened(alloc: Global, bytes: &[u8]) -> Result<Option<(Numbers, &[u8])>, Memory>
    ensures some { IfOk result (λ r. IfSome r (λ p.
        tokens bytes.now ≡ before (closed (map number p.0)) (tokens p.1.now))) }
    ensures none { IfOk result (λ r. IsNone r →
        NoneBegins (λ (ns : List ℕ). closed (map number ns)) (tokens bytes.now)) }
    ensures shorter { IfOk result (λ r. IfSome r (λ p. length p.1.now < length bytes.now)) }
{
    if let Some(behind) = read_close(bytes) {
        return Ok(Some((Numbers::new(alloc), behind)));
    }
    read_numbers(alloc, bytes)
}

// A list of numbers in front, and the bytes behind it. None exactly where the tokens begin with no such list.
fn read_list(alloc: Global, bytes: &[u8]) -> Result<Option<(Numbers, &[u8])>, Memory>
    ensures some { IfOk result (λ r. IfSome r (λ p.
        tokens bytes.now ≡ before (list p.0) (tokens p.1.now))) }
    ensures none { IfOk result (λ r. IsNone r → NoneBegins list (tokens bytes.now)) }
    ensures shorter { IfOk result (λ r. IfSome r (λ p. length p.1.now < length bytes.now)) }
{
    match read_open(bytes) {
        Some(rest) => read_opened(alloc, rest),
        None => Ok(None),
    }
}

// At least one list of numbers, with commas, and the bracket that closes them.
fn read_more_lists(alloc: Global, bytes: &[u8]) -> Result<Option<(Lists, &[u8])>, Memory>
    ensures some { IfOk result (λ r. IfSome r (λ p.
        tokens bytes.now ≡ before (closed (map list p.0)) (tokens p.1.now))) }
    ensures full { IfOk result (λ r. IfSome r (λ p. IsNormal (part.Lists p.0))) }
    ensures none { IfOk result (λ r. IsNone r → (l : List ℕ) →
        NoneBegins (λ (ls : List (List ℕ)). closed (map list (l ∷ ls))) (tokens bytes.now)) }
    ensures shorter { IfOk result (λ r. IfSome r (λ p. length p.1.now < length bytes.now)) }
{
    let mut lists = Lists::new(alloc);
    let mut rest = bytes;
    'items: loop {
        let Some((list, behind)) = read_list(alloc, rest)? else {
            return Ok(None);
        };
        lists.push(list)?;
        let Some((last, next)) = read_divider(behind) else {
            return Ok(None);
        };
        if last {
            return Ok(Some((lists, next)));
        }
        rest = next;
    }
}

// A list or lists behind the bracket that opens them. No lists are the list of no numbers.
fn read_bracket(alloc: Global, bytes: &[u8]) -> Result<Option<(Part, &[u8])>, Memory>
    ensures some { IfOk result (λ r. IfSome r (λ p.
        before (Open ∷ []) (tokens bytes.now) ≡ before (part_tokens p.0) (tokens p.1.now))) }
    ensures normal { IfOk result (λ r. IfSome r (λ p. IsNormal p.0)) }
    ensures none { IfOk result (λ r. IsNone r →
        NoneBegins part_tokens (before (Open ∷ []) (tokens bytes.now))) }
    ensures shorter { IfOk result (λ r. IfSome r (λ p. length p.1.now < length bytes.now)) }
{
    if let Some(_) = read_open(bytes) {
        let Some((lists, rest)) = read_more_lists(alloc, bytes)? else {
            return Ok(None);
        };
        return Ok(Some((Part::Lists(lists), rest)));
    }
    let Some((list, behind)) = read_opened(alloc, bytes)? else {
        return Ok(None);
    };
    Ok(Some((Part::List(list), behind)))
}

// The part in front, and the bytes behind it. None exactly where the tokens begin with no part.
fn read_part(alloc: Global, bytes: &[u8]) -> Result<Option<(Part, &[u8])>, Memory>
    ensures some { IfOk result (λ r. IfSome r (λ p.
        tokens bytes.now ≡ before (part_tokens p.0) (tokens p.1.now))) }
    ensures normal { IfOk result (λ r. IfSome r (λ p. IsNormal p.0)) }
    ensures none { IfOk result (λ r. IsNone r → NoneBegins part_tokens (tokens bytes.now)) }
    ensures shorter { IfOk result (λ r. IfSome r (λ p. length p.1.now < length bytes.now)) }
{
    let Some((token, rest)) = next_token(bytes) else {
        return Ok(None);
    };
    match token {
        Token::Word(name) => Ok(Some((Part::Name(name), rest))),
        Token::Number(n) => Ok(Some((Part::Number(n), rest))),
        Token::Open => read_bracket(alloc, rest),
        Token::Assign | Token::Close | Token::Comma => Ok(None),
    }
}

/// The form that the bytes are. None exactly where they are none.
pub fn read_form(alloc: Global, bytes: &[u8]) -> Result<Option<Form>, Memory>
    ensures some { IfOk result (λ r. IfSome r (λ f. tokens bytes.now ≡ Some (form_tokens f))) }
    ensures normal { IfOk result (λ r. IfSome r (λ f. AreNormal (parts_of f))) }
    ensures none { IfOk result (λ r. IsNone r → NoneIs form_tokens (tokens bytes.now)) }
{
    let Some((first, behind)) = read_part(alloc, bytes)? else {
        return Ok(None);
    };
    let mut form = Form::Alone(first);
    let mut rest = behind;
    'parts: while !is_blank(rest) {
        let Some((part, next)) = read_part(alloc, rest)? else {
            return Ok(None);
        };
        let Some(longer) = form.with(part) else {
            return Ok(None);
        };
        form = longer;
        rest = next;
    }
    Ok(Some(form))
}

/// The name before the sign of an assignment, and the bytes behind the sign. Without a name all bytes, exactly
/// where no name and no sign are the first tokens.
pub fn read_target(bytes: &[u8]) -> (Option<Name>, &[u8])
    ensures same { tokens bytes.now ≡ before (target_tokens result.0) (tokens result.1.now) }
    ensures none { IsNone result.0 → (x : List ℕ) (us : List Token) →
        tokens bytes.now ≡ Some (Word x ∷ Assign ∷ us) → ⊥ }
{
    let Some((name, behind)) = read_word(bytes) else {
        return (None, bytes);
    };
    match read_assign(behind) {
        Some(rest) => (Some(name), rest),
        None => (None, bytes),
    }
}
