//! The bytes of a template filled with its operands, with the shortest displacement.

ghost use Rattle.std.specs.Prelude.{◌≡◌, ◌+◌, ◌<◌, ◌≤◌, ◌++◌, IfSome, IsSome, IsFalse, None};
ghost use Rattle.arrayvec.specs.ArrayVec.{array_vec_len};
ghost use Rattle.dm_ins.specs.Spelling.{word_bytes};
ghost use Rattle.dm_ins.specs.inner.Search.{OperandFits, PlaceFits, behind_bytes, bytes_of, data_bytes, either, fields_bytes, memory_bytes, rm_of, seen_bytes, with_displacement};

use crate::demand::{Data, RegisterOrMemory, demand_for, has_no_base, may_be};
use crate::operand::{Address, Base, Operand, extend};
use crate::table::Template;
use arrayvec::ArrayVec;

/// The bytes of an action: the first one, at most three for the mod r/m byte with its displacement,
/// and at most four for each operand.
pub type ActionBytes = ArrayVec<u8, 12>;

/// One template of the table under its first byte.
#[derive(Clone, Copy)]
pub struct Choice {
    pub opcode: u8,
    pub template: Template,
    /// The reg field that chooses the template in its group.
    pub register: Option<u8>,
    /// The second byte of a template that fixes it (AAM, AAD).
    pub second: Option<u8>,
}

/// The r/m field of a memory operand.
fn rm_field(base: Base) -> u8
    ensures value { result ≡ rm_of base }
    ensures fits { result < 8 }
{
    match base {
        Base::Direct => 6,
        Base::BxSi => 0,
        Base::BxDi => 1,
        Base::BpSi => 2,
        Base::BpDi => 3,
        Base::OnSi => 4,
        Base::OnDi => 5,
        Base::OnBp => 6,
        Base::OnBx => 7,
    }
}

/// Appends a word of a displacement or of an operand, its low byte first.
fn put_word(out: &mut ActionBytes, n: u16)
    requires { array_vec_len out.old + 2 ≤ 12 }
    ensures items { out.new.items ≡ out.old.items ++ word_bytes n }
    ensures len { array_vec_len out.new ≡ array_vec_len out.old + 2 }
{
    out.push((n % 256) as u8);
    out.push((n / 256) as u8);
}

/// Appends the bytes of an operand after the mod r/m byte and its displacement, each word low byte first.
fn put_data(out: &mut ActionBytes, tail: Data)
    requires { array_vec_len out.old + 4 ≤ 12 }
    ensures items { out.new.items ≡ out.old.items ++ data_bytes tail }
    ensures within { array_vec_len out.new ≤ array_vec_len out.old + 4 }
{
    match tail {
        Data::Nothing => {}
        Data::Byte(n) => out.push(n),
        Data::Word(n) => put_word(out, n),
        Data::Words(n, s) => {
            put_word(out, n);
            put_word(out, s);
        }
    }
}

/// Appends the mod r/m byte of the two fields and the displacement `n`: one byte if that extends to it by sign, else a
/// word.
fn put_displaced(out: &mut ActionBytes, register: u8, rm: u8, n: u16)
    requires room { array_vec_len out.old + 3 ≤ 12 }
    requires register { register < 8 }
    requires rm { rm < 8 }
    ensures items { out.new.items ≡ out.old.items ++ with_displacement register rm n }
    ensures within { array_vec_len out.new ≤ array_vec_len out.old + 3 }
{
    let low = (n % 256) as u8;
    if extend(low) == n {
        out.push(64 + (8 * register + rm));
        out.push(low);
    } else {
        out.push(128 + (8 * register + rm));
        put_word(out, n);
    }
}

/// Appends the mod r/m byte of a memory operand, with `register` as reg field, and its shortest displacement.
fn put_memory(out: &mut ActionBytes, register: u8, address: Address)
    requires room { array_vec_len out.old + 3 ≤ 12 }
    requires register { register < 8 }
    ensures items { out.new.items ≡ out.old.items ++ memory_bytes register address }
    ensures within { array_vec_len out.new ≤ array_vec_len out.old + 3 }
{
    let rm = rm_field(address.base);
    if has_no_base(address.base) {
        out.push(8 * register + 6);
        put_word(out, address.displacement);
    } else if rm == 6 {
        // Without a displacement these bits mean a direct address.
        put_displaced(out, register, 6, address.displacement);
    } else if address.displacement == 0 {
        out.push(8 * register + rm);
    } else {
        put_displaced(out, register, rm, address.displacement);
    }
}

/// Appends the mod r/m byte of a register or memory operand, with `register` as reg field, and its displacement if it
/// has one.
#[tactic(auto, unfolding(crate::specs::inner::Search::fields_bytes))]
fn put_fields(out: &mut ActionBytes, register: u8, place: RegisterOrMemory)
    requires room { array_vec_len out.old + 3 ≤ 12 }
    requires register { register < 8 }
    requires place { PlaceFits place }
    ensures items { out.new.items ≡ out.old.items ++ fields_bytes register place }
    ensures within { array_vec_len out.new ≤ array_vec_len out.old + 3 }
{
    match place {
        RegisterOrMemory::Register(n) => out.push(192 + (8 * register + n)),
        RegisterOrMemory::Memory(address) => put_memory(out, register, address),
    }
}

/// The first reg field, of a group or that an operand asks for, if there is one, else the second.
fn first_number(a: Option<u8>, b: Option<u8>) -> Option<u8>
    ensures value { result ≡ either a b }
    ensures fits { IfSome a (λ n. n < 8) → IfSome b (λ n. n < 8) → IfSome result (λ n. n < 8) }
{
    match a {
        Some(_) => a,
        None => b,
    }
}

/// The first register or memory operand if there is one, else the second.
fn first_place(a: Option<RegisterOrMemory>, b: Option<RegisterOrMemory>) -> Option<RegisterOrMemory>
    ensures value { result ≡ either a b }
    ensures fits { IfSome a PlaceFits → IfSome b PlaceFits → IfSome result PlaceFits }
{
    match a {
        Some(_) => a,
        None => b,
    }
}

/// Appends what comes between the first byte and the operands' bytes: a mod r/m byte with its displacement if there are
/// a reg field (`register`) and a register or memory operand (`place`), else the second byte of a template that fixes
/// it, else nothing.
fn put_behind(
    out: &mut ActionBytes,
    register: Option<u8>,
    place: Option<RegisterOrMemory>,
    second: Option<u8>,
)
    requires room { array_vec_len out.old + 3 ≤ 12 }
    requires register { IfSome register (λ n. n < 8) }
    requires place { IfSome place PlaceFits }
    ensures items { out.new.items ≡ out.old.items ++ behind_bytes register place second }
    ensures within { array_vec_len out.new ≤ array_vec_len out.old + 3 }
{
    if let Some(r) = register {
        if let Some(p) = place {
            put_fields(out, r, p);
            return;
        }
    }
    if let Some(c) = second {
        out.push(c);
    }
}

/// Whether the operands may be of the template's kinds: where this is false, `fill` returns None. It is the quick test
/// before any bytes are made.
#[inline(always)]
pub fn may_fill(choice: &Choice, first: Operand, second: Operand) -> bool
    ensures { IsFalse result → bytes_of choice.now first second ≡ None }
{
    may_be(choice.template.first, first) && may_be(choice.template.second, second)
}

/// The bytes of the template with these operands, None if they are not of its kinds.
#[inline(never)]
#[tactic(auto, unfolding(crate::specs::inner::Search::bytes_of))]
pub fn fill(choice: Choice, first: Operand, second: Operand) -> Option<ActionBytes>
    requires { IfSome choice.register (λ n. n < 8) }
    ensures bytes { seen_bytes result ≡ bytes_of choice first second }
    ensures first { IsSome result → OperandFits first }
    ensures second { IsSome result → OperandFits second }
{
    let d = demand_for(choice.template.first, first)?;
    let e = demand_for(choice.template.second, second)?;
    let register = first_number(choice.register, first_number(d.register, e.register));
    let place = first_place(d.place, e.place);
    let mut out = ArrayVec::new();
    out.push(choice.opcode);
    put_behind(&mut out, register, place, choice.second);
    put_data(&mut out, d.tail);
    put_data(&mut out, e.tail);
    Some(out)
}
