//! How each instruction touches memory, by its mnemonic (Intel 8086 Family User's Manual, section 2.7, "Instruction
//! Set").

ghost use Rattle.std.specs.Prelude.{◌≡◌};
ghost use Rattle.dm_touches.specs.Access.{access_of};

use dm_alu::{Sign, Width};
use dm_exec::StringOperation;
use dm_ins::Mnemonic;

/// How an instruction touches memory, apart from the bytes that it is decoded from. An operand that is no memory is not
/// touched.
#[derive(Clone, Copy)]
pub enum Access {
    /// No memory, whatever the operands.
    Nothing,
    /// Writes the first operand (LEA, IN).
    Set,
    /// Reads the second operand, writes the first (MOV).
    Move,
    /// Reads and writes both operands (XCHG).
    Exchange,
    /// Reads the far pointer at the second operand, writes the first (LES, LDS).
    LoadPointer,
    /// Reads the byte at BX + AL (XLAT).
    Translate,
    /// Reads the operand, writes the word below the stack's top (PUSH).
    Push,
    /// Reads the word on the stack's top, writes the operand (POP).
    Pop,
    /// Writes the word below the stack's top (PUSHF).
    PushFlags,
    /// Reads both operands, writes the first (arithmetic, logic, shifts, rotates).
    Modify,
    /// Reads both operands (CMP, TEST).
    Compare,
    /// Reads the operand (MUL, IMUL, jumps within the segment).
    Read,
    /// Reads the operand; where there is no quotient, takes interrupt 0 (DIV, IDIV).
    Divide(Sign),
    /// Reads the far pointer at the operand (far JMP).
    FarJump,
    /// Reads the operand, writes the word below the stack's top (CALL).
    Call,
    /// Reads the far pointer at the operand, writes two words below the stack's top (far CALL).
    FarCall,
    /// Reads the word on the stack's top (RET, POPF).
    Return,
    /// Reads two words on the stack's top (RETF).
    FarReturn,
    /// Reads three words on the stack's top (IRET).
    InterruptReturn,
    /// Takes the interrupt of the operand's number (INT).
    Interrupt,
    /// Takes interrupt 3 (INT 3).
    Breakpoint,
    /// Takes interrupt 4 where OF is set (INTO).
    OnOverflow,
    /// Reads an element at the source, at the destination or at both, or writes the one at the destination.
    String(StringOperation, Width),
}

/// How the instruction of a mnemonic touches memory.
#[tactic(auto, unfolding(crate::specs::Access::access_of))]
pub fn access_of(mnemonic: Mnemonic) -> Access
    ensures { result ≡ access_of mnemonic }
{
    match mnemonic {
        Mnemonic::Mov => Access::Move,
        Mnemonic::Lea | Mnemonic::Input => Access::Set,
        Mnemonic::Xchg => Access::Exchange,
        Mnemonic::Les | Mnemonic::Lds => Access::LoadPointer,
        Mnemonic::Xlat => Access::Translate,
        Mnemonic::Push => Access::Push,
        Mnemonic::Pop => Access::Pop,
        Mnemonic::Pushf => Access::PushFlags,
        Mnemonic::Popf | Mnemonic::Ret => Access::Return,
        Mnemonic::Add
        | Mnemonic::Adc
        | Mnemonic::Sub
        | Mnemonic::Sbb
        | Mnemonic::And
        | Mnemonic::Or
        | Mnemonic::Xor
        | Mnemonic::Inc
        | Mnemonic::Dec
        | Mnemonic::Neg
        | Mnemonic::Not
        | Mnemonic::Rol
        | Mnemonic::Ror
        | Mnemonic::Rcl
        | Mnemonic::Rcr
        | Mnemonic::Shl
        | Mnemonic::Shr
        | Mnemonic::Sar => Access::Modify,
        Mnemonic::Cmp | Mnemonic::Test => Access::Compare,
        Mnemonic::Mul | Mnemonic::Imul | Mnemonic::Jmp => Access::Read,
        Mnemonic::Div => Access::Divide(Sign::Unsigned),
        Mnemonic::Idiv => Access::Divide(Sign::Signed),
        Mnemonic::JmpFar => Access::FarJump,
        Mnemonic::Call => Access::Call,
        Mnemonic::CallFar => Access::FarCall,
        Mnemonic::Retf => Access::FarReturn,
        Mnemonic::Iret => Access::InterruptReturn,
        Mnemonic::Int => Access::Interrupt,
        Mnemonic::Int3 => Access::Breakpoint,
        Mnemonic::Into => Access::OnOverflow,
        Mnemonic::Movsb => Access::String(StringOperation::Move, Width::Byte),
        Mnemonic::Movsw => Access::String(StringOperation::Move, Width::Word),
        Mnemonic::Cmpsb => Access::String(StringOperation::Compare, Width::Byte),
        Mnemonic::Cmpsw => Access::String(StringOperation::Compare, Width::Word),
        Mnemonic::Stosb => Access::String(StringOperation::Store, Width::Byte),
        Mnemonic::Stosw => Access::String(StringOperation::Store, Width::Word),
        Mnemonic::Lodsb => Access::String(StringOperation::Load, Width::Byte),
        Mnemonic::Lodsw => Access::String(StringOperation::Load, Width::Word),
        Mnemonic::Scasb => Access::String(StringOperation::Scan, Width::Byte),
        Mnemonic::Scasw => Access::String(StringOperation::Scan, Width::Word),
        _ => Access::Nothing,
    }
}
