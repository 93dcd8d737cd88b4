//! What a step performs: a call of a service or driver, or an instruction.

ghost use Rattle.std.specs.Prelude.{◌≡◌, ◌+◌, ◌∷◌, [], map, MatchOption, None};
ghost use Rattle.dm_space.specs.EightBytes.{byte_after};
ghost use Rattle.dm_machine.specs.Step.{fetched};
ghost use Rattle.dm_services.specs.state.State.{State};
ghost use Rattle.dm_checker.specs.Findings.{IsAct};
ghost use Rattle.dm_checker.specs.inner.Steps.{IsBefore, IsUnlisted};

use dm_cpu::Cpu;
use dm_decode::decode;
use dm_findings::{Act, Call, Site, call_of, site_of};
use dm_machine::Machine;
use dm_space::Space;

/// What the checker keeps of the state before a step: the registers, A20, the present process, the call that the step
/// performs, if any, where in its code the program performs it, and, without a call, the sixteen bytes from CS:IP on.
#[derive(Clone, Copy)]
pub(crate) struct Before {
    pub(crate) cpu: Cpu,
    pub(crate) a20: bool,
    pub(crate) present: u16,
    pub(crate) call: Option<Call>,
    pub(crate) site: Site,
    pub(crate) bytes: [u8; 16],
}

/// The eight bytes that stand `skipped` bytes after CS:IP, read one by one; offsets wrap.
#[inline(never)]
fn fetch_each(cpu: &Cpu, space: &Space, skipped: u16) -> [u8; 8]
    ensures { result ≡ map (λ k. byte_after space.now.memory cpu.now.cs cpu.now.ip (skipped + k)) (0 ∷ 1 ∷ 2 ∷ 3 ∷ 4 ∷ 5
        ∷ 6 ∷ 7 ∷ []) }
{
    let at = |k: u16| space.peek(cpu.cs, cpu.ip.wrapping_add(skipped).wrapping_add(k));
    [at(0), at(1), at(2), at(3), at(4), at(5), at(6), at(7)]
}

/// The eight bytes that stand `skipped` bytes after CS:IP, read at once where memory allows it; offsets wrap.
#[inline(always)]
fn fetch_eight(cpu: &Cpu, space: &Space, skipped: u16) -> [u8; 8]
    ensures { result ≡ map (λ k. byte_after space.now.memory cpu.now.cs cpu.now.ip (skipped + k)) (0 ∷ 1 ∷ 2 ∷ 3 ∷ 4 ∷ 5
        ∷ 6 ∷ 7 ∷ []) }
{
    match space.eight_bytes(cpu.cs, cpu.ip.wrapping_add(skipped)) {
        Some(eight) => eight.to_le_bytes(),
        None => fetch_each(cpu, space, skipped),
    }
}

/// The sixteen bytes from CS:IP on, as an instruction is decoded from them; offsets wrap.
#[tactic(auto, unfolding(dm_space::specs::EightBytes::sixteen_after))]
fn fetch(cpu: &Cpu, space: &Space) -> [u8; 16]
    ensures { result ≡ fetched space.now.memory cpu.now }
{
    let [a, b, c, d, e, f, g, h] = fetch_eight(cpu, space, 0);
    let [i, j, k, l, m, n, o, p] = fetch_eight(cpu, space, 8);
    [a, b, c, d, e, f, g, h, i, j, k, l, m, n, o, p]
}

/// The sixteen bytes from CS:IP on if the step performs no call. (With one they are not looked at, and would be read
/// from the ROM, one by one.)
#[inline(always)]
fn fetch_unless(call: Option<Call>, cpu: &Cpu, space: &Space) -> [u8; 16]
    ensures { call ≡ None → result ≡ fetched space.now.memory cpu.now }
{
    match call {
        Some(_) => [0; 16],
        None => fetch(cpu, space),
    }
}

impl Before {
    /// What the checker keeps of a machine before its next step.
    pub(crate) fn of(machine: &Machine) -> Before
        ensures { IsBefore machine.now result }
    {
        let cpu = machine.cpu();
        let space = machine.space();
        let call = call_of(&cpu);
        Before {
            cpu,
            a20: space.a20(),
            present: machine.present(),
            call,
            site: site_of(&cpu, space, call),
            bytes: fetch_unless(call, &cpu, space),
        }
    }

    /// What the step performs: the call, or the instruction at CS:IP. None if the bytes there are no instruction.
    pub(crate) fn act(&self) -> Option<Act>
        ensures { (s : State) → IsBefore s self.now → MatchOption result (IsUnlisted s) (IsAct s) }
    {
        if let Some(call) = self.call {
            return Some(Act::Call(call));
        }
        match decode(&self.bytes) {
            Some((ins, len)) => Some(Act::Instruction(ins, self.cpu.ip.wrapping_add(len as u16))),
            None => None,
        }
    }
}
