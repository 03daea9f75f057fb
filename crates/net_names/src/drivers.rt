// The drivers of nets.
ghost use Rattle.std.specs.Prelude.{◌≡◌, ◌<◌, ◌^◌, IfOk, length, slice_set};
ghost use Rattle.net_names.specs.Drivers.{drivers_by, put_drivers, role_driver};

use circuit::parts::{Driver, Drivers, NetId};
use fm_base::Seq;
use room::{NoRoom, filled};
use std::alloc::Global;

/// What drives a net.
#[derive(Clone, Copy)]
pub enum Role {
    Input,
    Table,
    Latch,
}

fn numbered(role: Role, k: u32) -> Driver
    ensures { result ≡ role_driver role k }
{
    match role {
        Role::Input => Driver::Input(k),
        Role::Table => Driver::Table(k),
        Role::Latch => Driver::Latch(k),
    }
}

fn put_driver(drivers: &mut [Driver], net: NetId, driver: Driver)
    ensures { drivers.new ≡ slice_set drivers.old net.0 driver }
{
    let at = net.0 as usize;
    if at < drivers.len() {
        drivers[at] = driver;
    }
}

/// Nets have drivers of one role, numbered from 0.
fn put_role(drivers: &mut [Driver], nets: &[NetId], role: Role)
    requires { length nets.now < 2 ^ 32 }
    ensures { drivers.new ≡ put_drivers (role_driver role) 0 nets.now drivers.old }
{
    for (k, net) in nets.iter().enumerate() {
        put_driver(drivers, *net, numbered(role, k as u32));
    }
}

/// The drivers of so many nets, where these are driven by inputs, tables and latches.
pub fn drivers_of(
    alloc: Global,
    inputs: &[NetId],
    tables: &[NetId],
    latches: &[NetId],
    count: usize,
) -> Result<Drivers, NoRoom>
    requires inputs { length inputs.now < 2 ^ 32 }
    requires tables { length tables.now < 2 ^ 32 }
    requires latches { length latches.now < 2 ^ 32 }
    ensures { IfOk result (λ ds. ds ≡ drivers_by inputs.now tables.now latches.now count) }
{
    let mut drivers = filled(alloc, Driver::Input(0), count)?;
    put_role(&mut drivers, inputs, Role::Input);
    put_role(&mut drivers, tables, Role::Table);
    put_role(&mut drivers, latches, Role::Latch);
    Ok(Seq::from_vec(drivers))
}
