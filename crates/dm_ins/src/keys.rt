//! Where the templates of each mnemonic stand in the table (Intel 8086 Family User's Manual, section 4, tables 4-12 and
//! 4-13).

ghost use Rattle.std.specs.Prelude.{◌≡◌, true};
ghost use Rattle.std.specs.List.{list_all};
ghost use Rattle.dm_ins.specs.inner.Keys.{keyed, has_field};

use crate::action::Mnemonic;

/// The first byte and the reg field under which a template stands. Outside the groups the reg field is 0.
#[derive(Clone, Copy, Debug, PartialEq, Eq)]
pub struct Key {
    pub opcode: u8,
    pub register: u8,
}

/// Keys, each with a slash between the first byte and the reg field.
macro_rules! keys {
    ($($opcode:literal/$register:literal)*) => {
        &[$(Key { opcode: $opcode, register: $register }),*]
    };
}

/// The keys of the templates that have the mnemonic, in the order of their first bytes and reg fields.
#[tactic(auto, unfolding(crate::specs::inner::Keys::keyed))]
pub fn keys_of(mnemonic: Mnemonic) -> &'static [Key]
    ensures keys { result.now ≡ keyed mnemonic }
    ensures fits { list_all has_field result.now ≡ true }
{
    match mnemonic {
        Mnemonic::Add => keys!(
            0x00/0 0x01/0 0x02/0 0x03/0 0x04/0 0x05/0 0x80/0 0x81/0 0x82/0 0x83/0
        ),
        Mnemonic::Or => keys!(
            0x08/0 0x09/0 0x0A/0 0x0B/0 0x0C/0 0x0D/0 0x80/1 0x81/1 0x82/1 0x83/1
        ),
        Mnemonic::Adc => keys!(
            0x10/0 0x11/0 0x12/0 0x13/0 0x14/0 0x15/0 0x80/2 0x81/2 0x82/2 0x83/2
        ),
        Mnemonic::Sbb => keys!(
            0x18/0 0x19/0 0x1A/0 0x1B/0 0x1C/0 0x1D/0 0x80/3 0x81/3 0x82/3 0x83/3
        ),
        Mnemonic::And => keys!(
            0x20/0 0x21/0 0x22/0 0x23/0 0x24/0 0x25/0 0x80/4 0x81/4 0x82/4 0x83/4
        ),
        Mnemonic::Sub => keys!(
            0x28/0 0x29/0 0x2A/0 0x2B/0 0x2C/0 0x2D/0 0x80/5 0x81/5 0x82/5 0x83/5
        ),
        Mnemonic::Xor => keys!(
            0x30/0 0x31/0 0x32/0 0x33/0 0x34/0 0x35/0 0x80/6 0x81/6 0x82/6 0x83/6
        ),
        Mnemonic::Cmp => keys!(
            0x38/0 0x39/0 0x3A/0 0x3B/0 0x3C/0 0x3D/0 0x80/7 0x81/7 0x82/7 0x83/7
        ),
        Mnemonic::Rol => keys!(0xD0/0 0xD1/0 0xD2/0 0xD3/0),
        Mnemonic::Ror => keys!(0xD0/1 0xD1/1 0xD2/1 0xD3/1),
        Mnemonic::Rcl => keys!(0xD0/2 0xD1/2 0xD2/2 0xD3/2),
        Mnemonic::Rcr => keys!(0xD0/3 0xD1/3 0xD2/3 0xD3/3),
        Mnemonic::Shl => keys!(0xD0/4 0xD1/4 0xD2/4 0xD3/4),
        Mnemonic::Shr => keys!(0xD0/5 0xD1/5 0xD2/5 0xD3/5),
        Mnemonic::Sar => keys!(0xD0/7 0xD1/7 0xD2/7 0xD3/7),
        Mnemonic::Jo => keys!(0x70 / 0),
        Mnemonic::Jno => keys!(0x71 / 0),
        Mnemonic::Jb => keys!(0x72 / 0),
        Mnemonic::Jae => keys!(0x73 / 0),
        Mnemonic::Jz => keys!(0x74 / 0),
        Mnemonic::Jnz => keys!(0x75 / 0),
        Mnemonic::Jbe => keys!(0x76 / 0),
        Mnemonic::Ja => keys!(0x77 / 0),
        Mnemonic::Js => keys!(0x78 / 0),
        Mnemonic::Jns => keys!(0x79 / 0),
        Mnemonic::Jp => keys!(0x7A / 0),
        Mnemonic::Jnp => keys!(0x7B / 0),
        Mnemonic::Jl => keys!(0x7C / 0),
        Mnemonic::Jge => keys!(0x7D / 0),
        Mnemonic::Jle => keys!(0x7E / 0),
        Mnemonic::Jg => keys!(0x7F / 0),
        Mnemonic::Movsb => keys!(0xA4 / 0),
        Mnemonic::Movsw => keys!(0xA5 / 0),
        Mnemonic::Cmpsb => keys!(0xA6 / 0),
        Mnemonic::Cmpsw => keys!(0xA7 / 0),
        Mnemonic::Stosb => keys!(0xAA / 0),
        Mnemonic::Stosw => keys!(0xAB / 0),
        Mnemonic::Lodsb => keys!(0xAC / 0),
        Mnemonic::Lodsw => keys!(0xAD / 0),
        Mnemonic::Scasb => keys!(0xAE / 0),
        Mnemonic::Scasw => keys!(0xAF / 0),
        Mnemonic::Aaa => keys!(0x37 / 0),
        Mnemonic::Aad => keys!(0xD5 / 0),
        Mnemonic::Aam => keys!(0xD4 / 0),
        Mnemonic::Aas => keys!(0x3F / 0),
        Mnemonic::Call => keys!(0xE8/0 0xFF/2),
        Mnemonic::CallFar => keys!(0x9A/0 0xFF/3),
        Mnemonic::Cbw => keys!(0x98 / 0),
        Mnemonic::Clc => keys!(0xF8 / 0),
        Mnemonic::Cld => keys!(0xFC / 0),
        Mnemonic::Cli => keys!(0xFA / 0),
        Mnemonic::Cmc => keys!(0xF5 / 0),
        Mnemonic::Cwd => keys!(0x99 / 0),
        Mnemonic::Daa => keys!(0x27 / 0),
        Mnemonic::Das => keys!(0x2F / 0),
        Mnemonic::Dec => keys!(
            0x48/0 0x49/0 0x4A/0 0x4B/0 0x4C/0 0x4D/0 0x4E/0 0x4F/0 0xFE/1 0xFF/1
        ),
        Mnemonic::Div => keys!(0xF6/6 0xF7/6),
        Mnemonic::Esc => keys!(0xD8/0 0xD9/0 0xDA/0 0xDB/0 0xDC/0 0xDD/0 0xDE/0 0xDF/0),
        Mnemonic::Hlt => keys!(0xF4 / 0),
        Mnemonic::Idiv => keys!(0xF6/7 0xF7/7),
        Mnemonic::Imul => keys!(0xF6/5 0xF7/5),
        Mnemonic::Input => keys!(0xE4/0 0xE5/0 0xEC/0 0xED/0),
        Mnemonic::Inc => keys!(
            0x40/0 0x41/0 0x42/0 0x43/0 0x44/0 0x45/0 0x46/0 0x47/0 0xFE/0 0xFF/0
        ),
        Mnemonic::Int => keys!(0xCD / 0),
        Mnemonic::Int3 => keys!(0xCC / 0),
        Mnemonic::Into => keys!(0xCE / 0),
        Mnemonic::Iret => keys!(0xCF / 0),
        Mnemonic::Jcxz => keys!(0xE3 / 0),
        Mnemonic::Jmp => keys!(0xE9/0 0xFF/4),
        Mnemonic::JmpFar => keys!(0xEA/0 0xFF/5),
        Mnemonic::JmpShort => keys!(0xEB / 0),
        Mnemonic::Lahf => keys!(0x9F / 0),
        Mnemonic::Lds => keys!(0xC5 / 0),
        Mnemonic::Lea => keys!(0x8D / 0),
        Mnemonic::Les => keys!(0xC4 / 0),
        Mnemonic::Loop => keys!(0xE2 / 0),
        Mnemonic::Loope => keys!(0xE1 / 0),
        Mnemonic::Loopne => keys!(0xE0 / 0),
        Mnemonic::Mov => keys!(
            0x88/0 0x89/0 0x8A/0 0x8B/0 0x8C/0 0x8C/1 0x8C/2 0x8C/3 0x8E/0 0x8E/2 0x8E/3 0xA0/0
            0xA1/0 0xA2/0 0xA3/0 0xB0/0 0xB1/0 0xB2/0 0xB3/0 0xB4/0 0xB5/0 0xB6/0 0xB7/0 0xB8/0
            0xB9/0 0xBA/0 0xBB/0 0xBC/0 0xBD/0 0xBE/0 0xBF/0 0xC6/0 0xC7/0
        ),
        Mnemonic::Mul => keys!(0xF6/4 0xF7/4),
        Mnemonic::Neg => keys!(0xF6/3 0xF7/3),
        Mnemonic::Not => keys!(0xF6/2 0xF7/2),
        Mnemonic::Output => keys!(0xE6/0 0xE7/0 0xEE/0 0xEF/0),
        Mnemonic::Pop => keys!(
            0x07/0 0x17/0 0x1F/0 0x58/0 0x59/0 0x5A/0 0x5B/0 0x5C/0 0x5D/0 0x5E/0 0x5F/0 0x8F/0
        ),
        Mnemonic::Popf => keys!(0x9D / 0),
        Mnemonic::Push => keys!(
            0x06/0 0x0E/0 0x16/0 0x1E/0 0x50/0 0x51/0 0x52/0 0x53/0 0x54/0 0x55/0 0x56/0 0x57/0
            0xFF/6
        ),
        Mnemonic::Pushf => keys!(0x9C / 0),
        Mnemonic::Ret => keys!(0xC2/0 0xC3/0),
        Mnemonic::Retf => keys!(0xCA/0 0xCB/0),
        Mnemonic::Sahf => keys!(0x9E / 0),
        Mnemonic::Stc => keys!(0xF9 / 0),
        Mnemonic::Std => keys!(0xFD / 0),
        Mnemonic::Sti => keys!(0xFB / 0),
        Mnemonic::Test => keys!(0x84/0 0x85/0 0xA8/0 0xA9/0 0xF6/0 0xF7/0),
        Mnemonic::Wait => keys!(0x9B / 0),
        Mnemonic::Xchg => keys!(
            0x86/0 0x87/0 0x90/0 0x91/0 0x92/0 0x93/0 0x94/0 0x95/0 0x96/0 0x97/0
        ),
        Mnemonic::Xlat => keys!(0xD7 / 0),
    }
}
