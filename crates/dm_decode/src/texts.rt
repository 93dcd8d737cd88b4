//! The text of an instruction: its prefix words, its mnemonic and its operands (Intel 8086 Family
//! User's Manual, section 2.7 and section 2.8). Each `put` function appends to `line`, and changes
//! nothing else.

ghost use Rattle.std.specs.Prelude.{◌≡◌, ◌+◌, ◌≤◌, ◌++◌, length};
ghost use Rattle.dm_decode.specs.Pieces.{text_bytes};
ghost use Rattle.dm_decode.specs.Texts.{register_pair, base_pieces, displacement_pieces, address_pieces, is_shift, is_general, gives_size, size_pieces, memory_pieces, operand_pieces, second_pieces, operands_pieces, is_accumulator, is_nop, action_pieces, segment_pieces, lock_pieces, repeat_pieces, prefix_pieces, text_of};

use crate::line::Line;
use crate::names::{byte_register_name, mnemonic_name, segment_register_name, word_register_name};
use dm_ins::{
    Action, Address, Base, Ins, Mnemonic, Operand, Prefixes, Repeat, SegmentRegister, Width,
    WordRegister,
};

/// Appends the names of two registers with a + between them.
fn put_pair(line: &mut Line, first: WordRegister, second: WordRegister)
    requires { length line.old + 5 ≤ 64 }
    ensures items { line.new ≡ line.old ++ text_bytes (register_pair first second) }
    ensures len { length line.new ≡ length line.old + 5 }
{
    line.put(word_register_name(first));
    line.put(b"+");
    line.put(word_register_name(second));
}

/// Appends the registers of an address; a direct address has none.
fn put_base(line: &mut Line, base: Base)
    requires { length line.old + 5 ≤ 64 }
    ensures items { line.new ≡ line.old ++ text_bytes (base_pieces base) }
    ensures within { length line.new ≤ length line.old + 5 }
{
    match base {
        Base::Direct => {}
        Base::BxSi => put_pair(line, WordRegister::Bx, WordRegister::Si),
        Base::BxDi => put_pair(line, WordRegister::Bx, WordRegister::Di),
        Base::BpSi => put_pair(line, WordRegister::Bp, WordRegister::Si),
        Base::BpDi => put_pair(line, WordRegister::Bp, WordRegister::Di),
        Base::OnSi => line.put(word_register_name(WordRegister::Si)),
        Base::OnDi => line.put(word_register_name(WordRegister::Di)),
        Base::OnBp => line.put(word_register_name(WordRegister::Bp)),
        Base::OnBx => line.put(word_register_name(WordRegister::Bx)),
    }
}

/// Appends a displacement with a + before it; 0 is left out.
fn put_displacement(line: &mut Line, n: u16)
    requires { length line.old + 7 ≤ 64 }
    ensures items { line.new ≡ line.old ++ text_bytes (displacement_pieces n) }
    ensures within { length line.new ≤ length line.old + 7 }
{
    if n != 0 {
        line.put(b"+");
        line.put_word(n);
    }
}

/// Appends what stands between the brackets of a memory operand: registers and displacement; of a direct address its
/// displacement alone, also where it is 0.
#[tactic(auto, using(crate::proofs::Pieces::appended))]
fn put_address(line: &mut Line, address: Address)
    requires { length line.old + 12 ≤ 64 }
    ensures items { line.new ≡ line.old ++ text_bytes (address_pieces address) }
    ensures within { length line.new ≤ length line.old + 12 }
{
    match address.base {
        Base::Direct => line.put_word(address.displacement),
        base => {
            put_base(line, base);
            put_displacement(line, address.displacement);
        }
    }
}

/// Whether the mnemonic is that of a shift or a rotate.
fn shifts(mnemonic: Mnemonic) -> bool
    ensures { result ≡ is_shift mnemonic }
{
    matches!(
        mnemonic,
        Mnemonic::Rol
            | Mnemonic::Ror
            | Mnemonic::Rcl
            | Mnemonic::Rcr
            | Mnemonic::Shl
            | Mnemonic::Shr
            | Mnemonic::Sar
    )
}

/// Whether the operand is a byte or word general register.
fn general(operand: Operand) -> bool
    ensures { result ≡ is_general operand }
{
    matches!(operand, Operand::ByteRegister(_) | Operand::WordRegister(_))
}

/// Whether the action has a general register as an operand, which gives the size of the other. CL as the count of a
/// shift gives none.
pub fn size_is_given(action: &Action) -> bool
    ensures { result ≡ gives_size action.now }
{
    general(action.first) || !shifts(action.mnemonic) && general(action.second)
}

/// The word before a memory operand, BYTE, WORD or NEAR, with a space after it; empty where none
/// stands there.
fn size(action: &Action, width: Width) -> &'static [u8]
    ensures value { result.now ≡ text_bytes (size_pieces action.now width) }
    ensures within { length result.now ≤ 5 }
{
    match action.mnemonic {
        Mnemonic::CallFar | Mnemonic::JmpFar => b"",
        Mnemonic::Call | Mnemonic::Jmp => b"NEAR ",
        _ => {
            if size_is_given(action) {
                b""
            } else {
                match width {
                    Width::Byte => b"BYTE ",
                    Width::Word => b"WORD ",
                }
            }
        }
    }
}

/// Appends a memory operand: the word for its size, and its address in brackets.
#[tactic(auto, using(crate::proofs::Pieces::appended))]
fn put_memory(line: &mut Line, action: &Action, width: Width, address: Address)
    requires { length line.old + 19 ≤ 64 }
    ensures items { line.new ≡ line.old ++ text_bytes (memory_pieces action.now width address) }
    ensures within { length line.new ≤ length line.old + 19 }
{
    line.put(size(action, width));
    line.put(b"[");
    put_address(line, address);
    line.put(b"]");
}

/// Appends an operand. `next` is the offset of the next instruction; a target is written as the
/// offset that it leads to.
fn put_operand(line: &mut Line, action: &Action, next: u16, operand: Operand)
    requires { length line.old + 19 ≤ 64 }
    ensures items { line.new ≡ line.old ++ text_bytes (operand_pieces action.now next operand) }
    ensures within { length line.new ≤ length line.old + 19 }
{
    match operand {
        Operand::Nothing => {}
        Operand::ByteRegister(register) => line.put(byte_register_name(register)),
        Operand::WordRegister(register) => line.put(word_register_name(register)),
        Operand::SegmentRegister(register) => line.put(segment_register_name(register)),
        Operand::Memory(width, address) => put_memory(line, action, width, address),
        Operand::ByteValue(n) => line.put_byte(n),
        Operand::WordValue(n) => line.put_word(n),
        Operand::One => line.put(b"1"),
        Operand::Target(distance) => line.put_word(next.wrapping_add(distance)),
        Operand::FarTarget(offset, segment) => {
            line.put_word(segment);
            line.put(b":");
            line.put_word(offset);
        }
    }
}

/// Appends a comma and the second operand, if there is one.
fn put_second(line: &mut Line, action: &Action, next: u16)
    requires { length line.old + 20 ≤ 64 }
    ensures items { line.new ≡ line.old ++ text_bytes (second_pieces action.now next) }
    ensures within { length line.new ≤ length line.old + 20 }
{
    match action.second {
        Operand::Nothing => {}
        operand => {
            line.put(b",");
            put_operand(line, action, next, operand);
        }
    }
}

/// Appends a space and the operands of an action; nothing without a first operand.
#[tactic(auto, using(crate::proofs::Pieces::appended))]
fn put_operands(line: &mut Line, action: &Action, next: u16)
    requires { length line.old + 40 ≤ 64 }
    ensures { line.new ≡ line.old ++ text_bytes (operands_pieces action.now next) }
{
    match action.first {
        Operand::Nothing => {}
        operand => {
            line.put(b" ");
            put_operand(line, action, next, operand);
            put_second(line, action, next);
        }
    }
}

/// Whether the operand is AX.
fn accumulator(operand: Operand) -> bool
    ensures { result ≡ is_accumulator operand }
{
    matches!(operand, Operand::WordRegister(WordRegister::Ax))
}

/// Whether the action is XCHG AX,AX, which is written NOP.
fn nop(action: &Action) -> bool
    ensures { result ≡ is_nop action.now }
{
    match action.mnemonic {
        Mnemonic::Xchg => accumulator(action.first) && accumulator(action.second),
        _ => false,
    }
}

/// Appends the mnemonic and the operands, or NOP.
#[tactic(auto, using(crate::proofs::Pieces::appended), unfolding(crate::specs::Texts::action_pieces))]
fn put_action(line: &mut Line, action: &Action, next: u16)
    requires { length line.old + 49 ≤ 64 }
    ensures { line.new ≡ line.old ++ text_bytes (action_pieces action.now next) }
{
    if nop(action) {
        line.put(b"NOP");
    } else {
        line.put(mnemonic_name(action.mnemonic));
        put_operands(line, action, next);
    }
}

/// Appends the name of the register of a segment override prefix and a space, if there is one.
fn put_segment(line: &mut Line, segment: Option<SegmentRegister>)
    requires { length line.old + 3 ≤ 64 }
    ensures items { line.new ≡ line.old ++ text_bytes (segment_pieces segment) }
    ensures within { length line.new ≤ length line.old + 3 }
{
    if let Some(register) = segment {
        line.put(segment_register_name(register));
        line.put(b" ");
    }
}

/// The word LOCK with a space after it; empty without that prefix.
fn lock_word(lock: bool) -> &'static [u8]
    ensures value { result.now ≡ text_bytes (lock_pieces lock) }
    ensures within { length result.now ≤ 5 }
{
    if lock { b"LOCK " } else { b"" }
}

/// The word of a repeat prefix, REP for F3h and REPNE for F2h, with a space after it; empty without
/// one.
fn repeat_word(repeat: Option<Repeat>) -> &'static [u8]
    ensures value { result.now ≡ text_bytes (repeat_pieces repeat) }
    ensures within { length result.now ≤ 6 }
{
    match repeat {
        None => b"",
        Some(Repeat::NotEqual) => b"REPNE ",
        Some(Repeat::Equal) => b"REP ",
    }
}

/// Appends the words of the prefixes, each with a space after it.
#[tactic(auto, using(crate::proofs::Pieces::appended))]
fn put_prefixes(line: &mut Line, prefixes: Prefixes)
    requires { length line.old + 14 ≤ 64 }
    ensures items { line.new ≡ line.old ++ text_bytes (prefix_pieces prefixes) }
    ensures within { length line.new ≤ length line.old + 14 }
{
    put_segment(line, prefixes.segment);
    line.put(lock_word(prefixes.lock));
    line.put(repeat_word(prefixes.repeat));
}

/// Sets `line` to the text of an instruction, in at most 64 bytes, in place of what it held: the
/// line of an assembler for the instruction, with no label, comment or line end. `next` is the offset
/// of the next instruction, from which the targets of jumps and calls count.
///
/// Prefix words come first (the segment's, LOCK, REP or REPNE), then the mnemonic, then the
/// operands with a comma between them; XCHG AX,AX is written NOP. Numbers are hexadecimal, two
/// digits for a byte and four for a word, but the count 1 of a shift is `1`. `BYTE` or `WORD`
/// stands before memory where no general register gives its size; but JMP and CALL have `NEAR`
/// there, and their far forms no such word.
#[tactic(auto, using(crate::proofs::Pieces::appended), unfolding(crate::specs::Texts::text_of, crate::specs::Texts::pieces))]
pub fn text(ins: &Ins, next: u16, line: &mut Line)
    ensures { line.new ≡ text_of ins.now next }
{
    line.clear();
    put_prefixes(line, ins.prefixes);
    put_action(line, &ins.action, next);
}
