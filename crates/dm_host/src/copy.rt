//! A copy of a host, as a snapshot that can be run again.
ghost use Rattle.std.specs.Prelude.{◌≡◌, IfOk, IfErr};

use crate::host::{Host, Stage};
use crate::refusal::Refusal;
use crate::setup::Setup;
use dm_machine::Config;
use std::alloc::{AllocError, Global};

impl Setup {
    /// Another setup of the same sizes, variables and programs. `AllocError` if an allocation fails.
    fn duplicate(&self, alloc: Global) -> Result<Setup, AllocError>
        ensures { IfOk result (λ setup. setup ≡ self.now) }
    {
        let variables = Vec::from_slice(alloc, self.config.variables.as_slice())?;
        let programs = self.programs.duplicate(alloc)?;
        let config = Config {
            sizes: self.config.sizes,
            variables,
            upper: self.config.upper,
        };
        Ok(Setup { config, programs })
    }
}

/// A copy of what a host has at its stage. `AllocError` if an allocation fails.
fn copy_stage(stage: &Stage, alloc: Global) -> Result<Stage, AllocError>
    ensures { IfOk result (λ copy. copy ≡ stage.now) }
{
    match stage {
        Stage::Fresh(setup) => Ok(Stage::Fresh(setup.duplicate(alloc)?)),
        Stage::Loaded(session) => Ok(Stage::Loaded(session.duplicate(alloc)?)),
        Stage::Spent => Ok(Stage::Spent),
    }
}

/// A copy of a host. `AllocError` if an allocation fails.
fn copy_host(host: &Host, alloc: Global) -> Result<Host, AllocError>
    ensures { IfOk result (λ copy. copy ≡ host.now) }
{
    let stage = copy_stage(&host.stage, alloc)?;
    let answer = Vec::from_slice(alloc, host.answer.as_slice())?;
    let report = host.report.duplicate(alloc)?;
    Ok(Host {
        stage,
        answer,
        report,
    })
}

impl Host {
    /// Another host at the same stage, with the same machine, breakpoints, answer and report. The two share nothing:
    /// what one does, the other does not see.
    ///
    /// # Errors
    ///
    /// `Memory` if an allocation failed.
    pub fn duplicate(&self, alloc: Global) -> Result<Host, Refusal>
        ensures ok { IfOk result (λ host. host ≡ self.now) }
        ensures err { IfErr result (λ why. why ≡ Refusal.Memory) }
    {
        match copy_host(self, alloc) {
            Ok(host) => Ok(host),
            Err(_) => Err(Refusal::Memory),
        }
    }
}
