//! From tokens to operands (Intel 8086 Family User's Manual, section 2.8, addressing modes, as ASM-86 writes them in
//! section 2.9). None says that the tokens are no operand, number or value.

ghost use Rattle.std.specs.Prelude.{◌≡◌, ◌<◌, ◌≤◌, ◌+◌, ◌∷◌, length, IfSome, None, option_map};
ghost use Rattle.dm_lines.specs.Operands.{is_close, is_comma, minus, amount_of, added_of, parsed_value, amount_word, inside, base_at, based_term, memory_operand, memory_of, far_pointer, term_from_number, term_of, parts, term_pair, terms_of};
ghost use Rattle.dm_lines.specs.inner.Operands.{seen, option_now, parts_behind};

use crate::term::{Amount, Expression, Term};
use crate::token::Token;
use dm_decode::words::Size;
use dm_ins::{Base, WordRegister};

/// The number -n; None if it is below -8000h.
fn negative(n: u16) -> Option<Amount>
    ensures { result ≡ minus n }
{
    if n <= 0x8000 {
        Some(Amount::Minus(n))
    } else {
        None
    }
}

/// The number that the tokens are, with `-` before it or none.
pub(crate) fn amount(tokens: &[Token]) -> Option<Amount>
    ensures value { result ≡ amount_of tokens.now }
    ensures some { IfSome result (λ _. 0 < length tokens.now) }
{
    match tokens {
        [Token::Number(n)] => Some(Amount::Plus(*n)),
        [Token::Minus, Token::Number(n)] => negative(*n),
        _ => None,
    }
}

/// The number that is added to a label or to registers: after `+` a number, with `-` before it or none, after `-` a
/// number, which is taken away; 0 without tokens.
fn added(tokens: &[Token]) -> Option<Amount>
    ensures { result ≡ added_of tokens.now }
{
    match tokens {
        [] => Some(Amount::Plus(0)),
        [Token::Plus, rest @ ..] => amount(rest),
        [Token::Minus, Token::Number(n)] => negative(*n),
        _ => None,
    }
}

/// The number that the tokens are, as a value without a label.
fn number(tokens: &[Token]) -> Option<Expression>
    ensures value { result ≡ option_map (λ n. record { label = None; amount = n }) (amount_of tokens.now) }
    ensures some { IfSome result (λ _. 0 < length tokens.now) }
{
    let amount = amount(tokens)?;
    Some(Expression {
        label: None,
        amount,
    })
}

/// The value that the tokens are: a number, or a label and a number that is added to it.
pub(crate) fn value(tokens: &[Token]) -> Option<Expression>
    ensures value { result ≡ parsed_value tokens.now }
    ensures some { IfSome result (λ _. 0 < length tokens.now) }
{
    match tokens {
        [Token::Name(label), rest @ ..] => {
            let amount = added(rest)?;
            Some(Expression {
                label: Some(*label),
                amount,
            })
        }
        _ => number(tokens),
    }
}

/// The word of a number, modulo 65,536.
pub(crate) fn word(amount: Amount) -> u16
    ensures { result ≡ amount_word amount }
{
    match amount {
        Amount::Plus(n) => n,
        Amount::Minus(n) => n.wrapping_neg(),
    }
}

/// The registers at the front of an address, a base or an index or both in this order, and the tokens after them.
#[tactic(auto, unfolding(crate::specs::Operands::base_at))]
fn base(tokens: &[Token]) -> Option<(Base, &[Token])>
    ensures { seen result ≡ base_at tokens.now }
{
    match tokens {
        [
            Token::Word(WordRegister::Bx),
            Token::Plus,
            Token::Word(WordRegister::Si),
            rest @ ..,
        ] => Some((Base::BxSi, rest)),
        [
            Token::Word(WordRegister::Bx),
            Token::Plus,
            Token::Word(WordRegister::Di),
            rest @ ..,
        ] => Some((Base::BxDi, rest)),
        [
            Token::Word(WordRegister::Bp),
            Token::Plus,
            Token::Word(WordRegister::Si),
            rest @ ..,
        ] => Some((Base::BpSi, rest)),
        [
            Token::Word(WordRegister::Bp),
            Token::Plus,
            Token::Word(WordRegister::Di),
            rest @ ..,
        ] => Some((Base::BpDi, rest)),
        [Token::Word(WordRegister::Si), rest @ ..] => Some((Base::OnSi, rest)),
        [Token::Word(WordRegister::Di), rest @ ..] => Some((Base::OnDi, rest)),
        [Token::Word(WordRegister::Bp), rest @ ..] => Some((Base::OnBp, rest)),
        [Token::Word(WordRegister::Bx), rest @ ..] => Some((Base::OnBx, rest)),
        _ => None,
    }
}

/// Whether the token is `]`, which ends an address.
fn closes(token: Token) -> bool
    ensures { result ≡ is_close token }
{
    matches!(token, Token::Close)
}

/// The tokens before the last one, which has to be `]`.
fn before_bracket(tokens: &[Token]) -> Option<&[Token]>
    ensures { option_now result ≡ inside tokens.now }
{
    if tokens.is_empty() {
        return None;
    }
    let end = tokens.len() - 1;
    if closes(tokens[end]) {
        Some(&tokens[..end])
    } else {
        None
    }
}

/// The memory operand with these tokens between its brackets and this size word before them: registers and a number,
/// or a value.
fn place(size: Size, tokens: &[Token]) -> Option<Term>
    ensures { result ≡ memory_operand size tokens.now }
{
    match base(tokens) {
        Some((base, rest)) => {
            let amount = added(rest)?;
            Some(Term::Memory(size, base, amount))
        }
        None => Some(Term::Address(size, value(tokens)?)),
    }
}

/// The memory operand with these tokens after its opening bracket; the last token closes it.
fn memory(size: Size, tokens: &[Token]) -> Option<Term>
    ensures { result ≡ memory_of size tokens.now }
{
    let inner = before_bracket(tokens)?;
    place(size, inner)
}

/// The far pointer of this segment, with its offset in the tokens after the colon.
fn far(segment: Amount, tokens: &[Token]) -> Option<Term>
    ensures { result ≡ far_pointer segment tokens.now }
{
    let offset = amount(tokens)?;
    Some(Term::Far(word(segment), word(offset)))
}

/// The operand that starts with a number or a label: a far pointer or a value.
fn numeral(tokens: &[Token]) -> Option<Term>
    ensures { result ≡ term_from_number tokens.now }
{
    match tokens {
        [Token::Number(n), Token::Colon, rest @ ..] => far(Amount::Plus(*n), rest),
        [Token::Minus, Token::Number(n), Token::Colon, rest @ ..] => {
            let segment = negative(*n)?;
            far(segment, rest)
        }
        _ => Some(Term::Number(value(tokens)?)),
    }
}

/// The operand that the tokens are: a register, memory, a far pointer, a number or a label.
#[tactic(auto, unfolding(crate::specs::Operands::term_of))]
fn term(tokens: &[Token]) -> Option<Term>
    ensures { result ≡ term_of tokens.now }
{
    match tokens {
        [Token::Byte(register)] => Some(Term::ByteRegister(*register)),
        [Token::Word(register)] => Some(Term::WordRegister(*register)),
        [Token::Segment(register)] => Some(Term::SegmentRegister(*register)),
        [Token::Size(size), Token::Open, rest @ ..] => memory(*size, rest),
        [Token::Open, rest @ ..] => memory(Size::Absent, rest),
        _ => numeral(tokens),
    }
}

/// Whether the token is a comma, which parts operands and items of data.
fn is_between(token: Token) -> bool
    ensures { result ≡ is_comma token }
{
    matches!(token, Token::Comma)
}

/// The tokens of the first operand or item of data, up to the first comma, and the tokens after that comma; None for
/// the latter without a comma.
pub(crate) fn front(tokens: &[Token]) -> (&[Token], Option<&[Token]>)
    ensures parts { parts tokens.now ≡ result.0.now ∷ parts_behind result.1 }
    ensures shorter { IfSome result.1 (λ rest. length result.0.now + length rest.now < length tokens.now) }
    ensures within { length result.0.now ≤ length tokens.now }
{
    for (i, token) in tokens.iter().enumerate() {
        if is_between(*token) {
            return (&tokens[..i], Some(&tokens[i + 1..]));
        }
    }
    (tokens, None)
}

/// The operands of an instruction, by the tokens after its mnemonic: at most two, `Nothing` for one that is missing.
pub(crate) fn terms(tokens: &[Token]) -> Option<(Term, Term)>
    ensures { result ≡ terms_of tokens.now }
{
    if tokens.is_empty() {
        return Some((Term::Nothing, Term::Nothing));
    }
    let (first, rest) = front(tokens);
    let Some(rest) = rest else {
        return Some((term(first)?, Term::Nothing));
    };
    let (second, more) = front(rest);
    match more {
        Some(_) => None,
        None => {
            let first = term(first)?;
            Some((first, term(second)?))
        }
    }
}
