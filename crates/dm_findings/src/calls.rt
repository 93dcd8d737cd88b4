//! The calls that a program makes of services and drivers (MS-DOS Programmer's Reference, "System Calls"; LIM EMS 4.0;
//! XMS 3.0).

ghost use Rattle.std.specs.Prelude.{◌≡◌};
ghost use Rattle.dm_findings.specs.Calls.{of_service, of_driver, bare_call, call_of};

use dm_cpu::Cpu;
use dm_ins::ByteRegister;
use dm_space::entry_points::{Driver, ENTRY_SEGMENT, EntryPoint, Service, entry_point_at};

/// A call of a service or a driver. The number of a function is what the call has in AH.
#[derive(Clone, Copy, Debug, PartialEq, Eq)]
pub enum Call {
    /// Interrupt 0, which DIV and IDIV take where there is no quotient.
    DivideError,
    /// INT 20h.
    Terminate,
    /// INT 21h, the function of this number.
    Dos(u8),
    /// INT 67h, the function of this number.
    ExpandedMemory(u8),
    /// INT 2Fh.
    Multiplex,
    /// A far call of the extended memory driver, the function of this number.
    ExtendedMemory(u8),
    /// The interrupt of this number, which nothing serves: its vector leads to an IRET of the ROM.
    Interrupt(u8),
}

/// The call of a service, by these registers: for INT 21h, the function in AH.
fn of_service(cpu: &Cpu, service: Service) -> Call
    ensures { result ≡ of_service cpu.now service }
{
    match service {
        Service::DivideError => Call::DivideError,
        Service::Terminate => Call::Terminate,
        Service::Dos => Call::Dos(cpu.byte(ByteRegister::Ah)),
    }
}

/// The call of a driver, by these registers: for INT 67h and the extended memory driver, the function in AH.
fn of_driver(cpu: &Cpu, driver: Driver) -> Call
    ensures { result ≡ of_driver cpu.now driver }
{
    match driver {
        Driver::ExpandedMemory => Call::ExpandedMemory(cpu.byte(ByteRegister::Ah)),
        Driver::Multiplex => Call::Multiplex,
        Driver::ExtendedMemory => Call::ExtendedMemory(cpu.byte(ByteRegister::Ah)),
    }
}

/// The call where CS:IP is no entry point: that of an interrupt that nothing serves, to whose IRET, at F000:4n for
/// interrupt n, the ROM leads; otherwise None.
fn bare_call(cpu: &Cpu) -> Option<Call>
    ensures { result ≡ bare_call cpu.now }
{
    if cpu.cs == ENTRY_SEGMENT && cpu.ip < 0x400 && cpu.ip % 4 == 0 {
        return Some(Call::Interrupt((cpu.ip / 4) as u8));
    }
    None
}

/// The call that the next step performs: that of the service or driver whose entry point is CS:IP, or of an interrupt
/// that nothing serves and whose return is at CS:IP. None if another instruction comes next.
#[tactic(auto, unfolding(crate::specs::Calls::call_of))]
pub fn call_of(cpu: &Cpu) -> Option<Call>
    ensures { result ≡ call_of cpu.now }
{
    match entry_point_at(cpu.cs, cpu.ip) {
        Some(EntryPoint::Service(service)) => Some(of_service(cpu, service)),
        Some(EntryPoint::Driver(driver)) => Some(of_driver(cpu, driver)),
        None => bare_call(cpu),
    }
}
