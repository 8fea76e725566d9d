//! Partitions that are filled.
ghost use Rattle.std.specs.Prelude.{◌≡◌, ◌≤◌, ◌^◌, ◌∷◌, []};
ghost use Rattle.outside.specs.Faults.{HasCause};
ghost use Rattle.outside.specs.Told.{Told, Stays};
ghost use Rattle.rule_txn.specs.Fills.{Fills, IsInFile, AreInFile};

use partition_pool::{Lease, Live};
use reg_file::{DeviceFault, RegFile};

/// The registers of a region of this many bits, at most 20.
fn size_of(bits: u32) -> u32
    requires { bits ≤ 20 }
    ensures { result ≡ 2 ^ bits }
{
    1 << bits
}

fn fill_one<R: RegFile>(
    regs: &mut R,
    lease: &Option<Lease<Live>>,
    value: u32,
) -> Result<(), DeviceFault>
    requires { IsInFile (R.dims regs.old) lease.now }
    ensures cause { HasCause (R.faults regs.old) (R.faults regs.new) result }
    ensures dims { R.dims regs.new ≡ R.dims regs.old }
    ensures contents { Told (Fills (lease.now ∷ []) value result)
        (R.contents regs.old) (R.contents regs.new) }
    ensures calls { Stays (R.calls regs.old) (R.calls regs.new) }
{
    match lease {
        None => Ok(()),
        Some(lease) => {
            let region = lease.region();
            regs.fill(lease.pool(), region.base, size_of(region.bits), value)
        }
    }
}

/// Fills the partitions of leases with a value.
pub(crate) fn fill_all<R: RegFile>(
    regs: &mut R,
    leases: &[Option<Lease<Live>>; 4],
    value: u32,
) -> Result<(), DeviceFault>
    requires { AreInFile (R.dims regs.old) leases.now }
    ensures cause { HasCause (R.faults regs.old) (R.faults regs.new) result }
    ensures dims { R.dims regs.new ≡ R.dims regs.old }
    ensures contents { Told (Fills leases.now value result) (R.contents regs.old) (R.contents regs.new) }
    ensures calls { Stays (R.calls regs.old) (R.calls regs.new) }
{
    let [one, two, three, four] = leases;
    fill_one(regs, one, value)?;
    fill_one(regs, two, value)?;
    fill_one(regs, three, value)?;
    fill_one(regs, four, value)
}
