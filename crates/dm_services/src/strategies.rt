//! INT 21h function 58h: the allocation strategy, and the link with upper memory (MS-DOS Programmer's Reference,
//! function 58h). A call that fails has its error code in AX and CF set, and changes nothing else; one that succeeds
//! has CF clear. Either way it returns by popping IP, CS and FLAGS, and counts the step.
ghost use Rattle.std.specs.Prelude.{◌≡◌, ◌+◌, None};
ghost use Rattle.dm_cpu.specs.Cpu.{byte_of};
ghost use Rattle.dm_ins.specs.declared.operand.ByteRegister.TheVariants.{Al};
ghost use Rattle.dm_services.specs.Strategies;
ghost use Rattle.dm_services.specs.Strategies.{Linking, SetsLink, StrategyCalls, TellsLink};

use crate::allocation::{answer, refuse};
use crate::state::Parts;
use dm_arena::{Area, Fit, Strategy, link, linked};
use dm_ins::ByteRegister;

/// A subfunction of function 58h.
#[derive(Clone, Copy, Debug, PartialEq, Eq)]
pub enum StrategyFunction {
    /// AL = 0: returns the allocation strategy's number in AX.
    TellStrategy,
    /// AL = 1: sets the allocation strategy to the number in BX.
    SetStrategy,
    /// AL = 2: returns in AL whether the arena is linked with upper memory.
    TellLink,
    /// AL = 3: links the arena with upper memory (BX = 1), or unlinks it (BX = 0).
    SetLink,
    /// Any other AL: error 1.
    Unknown,
}

/// The subfunction of 58h with a number, which calls have in AL.
fn subfunction_of(number: u8) -> StrategyFunction
    ensures { result ≡ Strategies.subfunction_of number }
{
    match number {
        0 => StrategyFunction::TellStrategy,
        1 => StrategyFunction::SetStrategy,
        2 => StrategyFunction::TellLink,
        3 => StrategyFunction::SetLink,
        _ => StrategyFunction::Unknown,
    }
}

/// The number of a strategy: its fit (0 to 2) in the low bits, its area (0, 40h or 80h) in the high ones.
fn strategy_number(strategy: Strategy) -> u16
    ensures { result ≡ Strategies.number_of_area strategy.area + Strategies.number_of_fit strategy.fit }
{
    let area = match strategy.area {
        Area::All => 0,
        Area::Upper => 0x40,
        Area::UpperFirst => 0x80,
    };
    let fit = match strategy.fit {
        Fit::First => 0,
        Fit::Best => 1,
        Fit::Last => 2,
    };
    area + fit
}

/// The strategy with this number among those for upper memory: 40h to 42h look there alone, 80h to 82h there first.
/// None for any other number.
fn upper_strategy_of(number: u16) -> Option<Strategy>
    ensures { result ≡ Strategies.upper_strategy_of number }
{
    let (fit, area) = match number {
        0x40 => (Fit::First, Area::Upper),
        0x41 => (Fit::Best, Area::Upper),
        0x42 => (Fit::Last, Area::Upper),
        0x80 => (Fit::First, Area::UpperFirst),
        0x81 => (Fit::Best, Area::UpperFirst),
        0x82 => (Fit::Last, Area::UpperFirst),
        _ => return None,
    };
    Some(Strategy { fit, area })
}

/// The strategy with this number: 0 to 2, and if upper memory belongs to the arena (`upper`), 40h to 42h and 80h to
/// 82h. None for any other number.
fn strategy_of(number: u16, upper: bool) -> Option<Strategy>
    ensures { result ≡ Strategies.strategy_of upper number }
{
    match number {
        0 => Some(Strategy::everywhere(Fit::First)),
        1 => Some(Strategy::everywhere(Fit::Best)),
        2 => Some(Strategy::everywhere(Fit::Last)),
        _ => {
            if upper {
                upper_strategy_of(number)
            } else {
                None
            }
        }
    }
}

/// What BX asks of subfunction 3: true (1) to link, false (0) to unlink. None for any other number, or if upper memory
/// does not belong to the arena (`upper` is false).
fn wanted(number: u16, upper: bool) -> Option<bool>
    ensures { result ≡ Strategies.wanted upper number }
{
    if !upper {
        return None;
    }
    match number {
        0 => Some(false),
        1 => Some(true),
        _ => None,
    }
}

/// Returns from function 58h with error 1 in AX and CF set: no such subfunction, or no such value in BX.
fn refuse_number(parts: &mut Parts)
    ensures { parts.new ≡ (Strategies.no_such_value parts.old).state }
{
    parts.cpu.ax = 1;
    answer(parts, true);
}

/// 58h with AL = 0: AX becomes the allocation strategy's number.
fn tell_strategy(parts: &mut Parts)
    ensures { parts.new ≡ (Strategies.strategy_reported parts.old).state }
{
    parts.cpu.ax = strategy_number(parts.strategy);
    answer(parts, false);
}

/// 58h with AL = 1: sets the allocation strategy to that with the number in BX; error 1, and the strategy stays, if
/// there is none with that number. AX stays on success.
fn set_strategy(parts: &mut Parts)
    ensures { parts.new ≡ (Strategies.set_to parts.old (Strategies.strategy_of parts.old.upper
        parts.old.cpu.bx)).state }
{
    match strategy_of(parts.cpu.bx, parts.upper) {
        Some(strategy) => {
            parts.strategy = strategy;
            answer(parts, false);
        }
        None => refuse_number(parts),
    }
}

/// 58h with AL = 2: AL becomes 1 if the arena is linked with upper memory, else 0; AH and memory stay. Error 7 if upper
/// memory belongs to the arena and memory holds no valid block list.
fn tell_link(parts: &mut Parts)
    ensures { TellsLink parts.old.upper parts.old (record { stop = None; state = parts.new }) }
{
    let told = if parts.upper {
        linked(&parts.space)
    } else {
        Ok(false)
    };
    match told {
        Ok(on) => {
            parts.cpu.set_byte(ByteRegister::Al, if on { 1 } else { 0 });
            answer(parts, false);
        }
        Err(refusal) => {
            refuse(&mut parts.cpu, refusal);
            answer(parts, true);
        }
    }
}

/// 58h with AL = 3 and a good BX: links the arena with upper memory (`on`), or unlinks it, by writing byte 0 of the
/// header before the link block's; memory stays if it is so already. Error 7, and memory stays, if memory holds no
/// valid block list or, to link, none in upper memory that can follow it.
fn make_link(parts: &mut Parts, on: bool)
    ensures { Linking on parts.old (record { stop = None; state = parts.new }) }
{
    match link(&mut parts.space, on) {
        Ok(()) => answer(parts, false),
        Err(refusal) => {
            refuse(&mut parts.cpu, refusal);
            answer(parts, true);
        }
    }
}

/// 58h with AL = 3: links the arena with upper memory (BX = 1), or unlinks it (BX = 0). Error 1 for any other BX, or if
/// upper memory does not belong to the arena.
fn set_link(parts: &mut Parts)
    ensures { SetsLink (Strategies.wanted parts.old.upper parts.old.cpu.bx) parts.old (record {
      stop = None;
      state = parts.new;
    }) }
{
    match wanted(parts.cpu.bx, parts.upper) {
        Some(on) => make_link(parts, on),
        None => refuse_number(parts),
    }
}

/// 58h: gets or sets the allocation strategy, or the link with upper memory, by AL; error 1 for an AL above 3.
pub(crate) fn allocation_strategy(parts: &mut Parts)
    ensures { StrategyCalls parts.old (Strategies.subfunction_of (byte_of parts.old.cpu Al)) (record {
      stop = None;
      state = parts.new;
    }) }
{
    match subfunction_of(parts.cpu.byte(ByteRegister::Al)) {
        StrategyFunction::TellStrategy => tell_strategy(parts),
        StrategyFunction::SetStrategy => set_strategy(parts),
        StrategyFunction::TellLink => tell_link(parts),
        StrategyFunction::SetLink => set_link(parts),
        StrategyFunction::Unknown => refuse_number(parts),
    }
}
