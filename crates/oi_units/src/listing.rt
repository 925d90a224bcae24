ghost use Rattle.std.specs.Prelude.{◌≡◌, ◌++◌, ◌≤◌, IfOk};
ghost use Rattle.oi_units.specs.Units.{most_units, unit_list};

use oi_base::NoMemory;
use oi_scsi::lun_bytes;
use std::alloc::Global;

/// What REPORT LUNS sends for so many logical units.
pub fn unit_list(alloc: Global, count: u8) -> Result<Vec<u8>, NoMemory>
    requires { count ≤ most_units }
    ensures { IfOk result (λ v. v.items ≡ unit_list count) }
{
    let mut list = Vec::new(alloc);
    list.extend_from_slice(&(8 * count as u32).to_be_bytes())?;
    list.extend_from_slice(&[0; 4])?;
    for lun in 0..count {
        list.extend_from_slice(&lun_bytes(lun))?;
    }
    Ok(list)
}
