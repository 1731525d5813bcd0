//! What a face's part of the configuration says of its link.

ghost use Rattle.std.specs.Prelude.{◌≡◌, map, IfOk};
ghost use Rattle.gate_face.specs.Kept.{end_in};
ghost use Rattle.gate_face.specs.Schedules as spec;

use contact_plan::{Plan, PlanFault, Window};
use gate_config::{Contact, FaceConfig};
use outbox::Schedule;
use std::alloc::{AllocError, Global};

/// When the link of a face is open, and its rates.
pub(crate) fn schedule_in(alloc: Global, config: &FaceConfig) -> Result<Schedule, AllocError>
    requires { spec.HasPlan config.now }
    ensures { IfOk result (λ schedule. schedule ≡ spec.schedule_in config.now) }
{
    let contacts = config.contacts.as_slice();
    let windows = windows_of(alloc, contacts)?;
    let rates = rates_of(alloc, contacts)?;
    match Plan::new(alloc, &windows) {
        Ok(plan) => Ok(Schedule::new(plan, rates, config.rate)),
        Err(PlanFault::Memory) => Err(AllocError),
        Err(PlanFault::TooMany | PlanFault::Order { .. }) => unreachable!(),
    }
}

/// The windows of contacts.
fn windows_of(alloc: Global, contacts: &[Contact]) -> Result<Vec<Window>, AllocError>
    ensures { IfOk result (λ windows. windows.items ≡ spec.windows_of contacts.now) }
{
    let mut windows = Vec::new(alloc);
    'contacts: for contact in contacts {
        windows.push(Window {
            from: contact.from,
            to: contact.to,
        })?;
    }
    Ok(windows)
}

/// The rates of contacts, where they have their own.
fn rates_of(alloc: Global, contacts: &[Contact]) -> Result<Vec<Option<u64>>, AllocError>
    ensures { IfOk result (λ rates. rates.items ≡ map spec.own_rate contacts.now) }
{
    let mut rates = Vec::new(alloc);
    'contacts: for contact in contacts {
        rates.push(contact.rate)?;
    }
    Ok(rates)
}

/// When each contact ends.
pub(crate) fn ends_of(alloc: Global, contacts: &[Contact]) -> Result<Vec<u64>, AllocError>
    ensures { IfOk result (λ ends. ends.items ≡ map end_in (spec.windows_of contacts.now)) }
{
    let mut ends = Vec::new(alloc);
    'contacts: for contact in contacts {
        ends.push(contact.to)?;
    }
    Ok(ends)
}
